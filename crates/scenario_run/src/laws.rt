// The laws on which a run rests.
ghost use Rattle.scenario_run.specs.Laws.{RunLaws};

use global_model::{journals_grow, pasts_grow};
use history_laws::{
    fronts_are_histories, journals_are_histories, journals_are_spelled, journals_fit, one_journal,
};
use scenario_text::{journals_are_read_back, scenarios_are_placed};

/// All of them at once.
pub fn laws()
    ensures { RunLaws }
{
    one_journal();
    journals_grow();
    pasts_grow();
    journals_are_histories();
    fronts_are_histories();
    scenarios_are_placed();
    journals_are_spelled();
    journals_fit();
    journals_are_read_back();
}
