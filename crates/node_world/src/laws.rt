// The laws on which the world rests.
ghost use Rattle.node_world.specs.Laws.{WorldLaws};

use byte_link::{bytes_follow_calls, pieces_follow_calls};
use enclave_rules::calls_write_own_lines;
use global_model::{
    journals_are_carried, journals_grow, lines_are_seen, pasts_grow, settles_deliver, views_answer,
    views_follow,
};
use node_machine::hops_are_pairs;
use xemem_wire::Decoder;
use xemem_wire::laws::{cut_spelling, spelling_length, spellings_are_read};
use xm_num::laws::rows;

/// All of them at once.
pub fn laws()
    ensures { WorldLaws }
{
    journals_grow();
    pasts_grow();
    journals_are_carried();
    calls_write_own_lines();
    lines_are_seen();
    views_answer();
    views_follow();
    settles_deliver();
    spelling_length();
    cut_spelling();
    spellings_are_read();
    bytes_follow_calls();
    pieces_follow_calls();
    hops_are_pairs();
    rows::<Decoder>();
}
