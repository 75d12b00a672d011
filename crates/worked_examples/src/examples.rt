// Worked examples: the contract of a function with an empty body, which compares the definitions with what was wanted of them.
ghost use Rattle.std.specs.Prelude.{◌≡◌, ◌++◌, ◌∷◌, [], None, Some, false, true, codes};
ghost use Rattle.xm_num.specs.declared.Cause.TheVariants as causes;
ghost use Rattle.enclave_rules.specs.Core.{host};
ghost use Rattle.xemem_language.specs.declared.line.Line.TheVariants as lines;
ghost use Rattle.enclave_rules.specs.Names.{segid_of};
ghost use Rattle.enclave_rules.specs.Segments.{name_request, named_record, unname_record};
ghost use Rattle.enclave_rules.specs.Steps.{record_lines, here_of, register_of, admit_of};
ghost use Rattle.global_model.specs.Refusals.{refusal_of};
ghost use Rattle.worked_examples.specs.Examples.{Gives, at_line, text, smallest, smallest_journal, refused, refused_journal, one_byte_short, one_byte_short_journal, discovered, discovered_journal, child_memory, child_memory_journal, no_host_born, no_host_born_journal, settled, settled_journal, late_name_server, late_name_server_journal, server_first, server_first_journal, blocks_first, blocks_first_journal, refused_calls, refused_calls_journal, segments_end, segments_end_journal, script_front, script_front_journal, refused_segments, refused_segments_journal, crowd, boot_under, start_at, two_lines, two_lines_journal, make_then, request_comes};
ghost use Rattle.call_laws.specs.Places.{Unborn, Asking, Answering, Held, Undoing, Done};
ghost use Rattle.worked_examples.specs.Records.{learned, numbered, dropped, noted, asking, answered, naming, dropped_there};
ghost use Rattle.scenario_text.specs.Scenario.{Faulty, Unbuilt};
ghost use Rattle.scenario_text.specs.declared.SyntaxFault.TheVariants as faults;

/// The worked scenarios come out as they were wanted, byte for byte, and stop where they were wanted to.
pub fn worked_examples()
    ensures smallest { Gives (text smallest) None (text smallest_journal) }
    ensures refused { Gives (text refused) None (text refused_journal) }
    ensures one_byte_short { Gives (text one_byte_short) None (text one_byte_short_journal) }
    ensures discovered { Gives (text discovered) None (text discovered_journal) }
    ensures child_memory { Gives (text child_memory) None (text child_memory_journal) }
    ensures no_host_born { Gives (text no_host_born) None (text no_host_born_journal) }
    ensures settled { Gives (text settled) None (text settled_journal) }
    ensures late_name_server { Gives (text late_name_server) None (text late_name_server_journal) }
    ensures server_first { Gives (text server_first) None (text server_first_journal) }
    ensures blocks_first { Gives (text blocks_first) None (text blocks_first_journal) }
    ensures refused_calls { Gives (text refused_calls) None (text refused_calls_journal) }
    ensures segments_end { Gives (text segments_end) None (text segments_end_journal) }
    ensures script_front { Gives (text script_front) None (text script_front_journal) }
    ensures refused_segments { Gives (text refused_segments) None (text refused_segments_journal) }
    ensures comment { Gives (codes "# nothing") None [] }
    ensures no_number { Gives (text (two_lines ++ codes "proc 0 x 1" ∷ [])) (at_line 3 (Faulty (faults.Number 2))) (text two_lines_journal) }
    ensures no_keyword { Gives (text (two_lines ++ codes "boot vm over 0 blocks 1" ∷ [])) (at_line 3 (Faulty (faults.Keyword 2))) (text two_lines_journal) }
    ensures no_mode { Gives (text (two_lines ++ codes "make 0 1 0 4096 640" ∷ [])) (at_line 3 (Faulty (faults.Number 5))) (text two_lines_journal) }
    ensures no_form { Gives (text (two_lines ++ codes "show maps" ∷ [])) (at_line 3 (Faulty (faults.Keyword 1))) (text two_lines_journal) }
    ensures no_word { Gives (text (two_lines ++ codes "jump" ∷ [])) (at_line 3 (Faulty faults.Word)) (text two_lines_journal) }
    ensures no_count { Gives (text (two_lines ++ codes "stop" ∷ [])) (at_line 3 (Faulty faults.Count)) (text two_lines_journal) }
    ensures no_place { Gives (codes "host 1") (at_line 1 (Faulty faults.Place)) [] }
    ensures out_of_range { Gives (codes "pool 5000") (at_line 1 (Faulty (faults.Number 1))) [] }
    ensures unbuilt { Gives (text (two_lines ++ codes "get 0 1 1 ro" ∷ [])) (at_line 3 Unbuilt) (text two_lines_journal) }
{}

/// An enclave behind 256, and a process behind 1,024, are refused as too many, whatever other condition holds but that the
/// enclave doesn't live.
pub fn crowds_are_refused()
    ensures last { refusal_of (crowd 254 0) (boot_under 0 45 false) ≡ None }
    ensures no_blocks { refusal_of (crowd 254 0) (boot_under 0 46 false) ≡ Some causes.NoBlocks }
    ensures full { refusal_of (crowd 255 0) (boot_under 0 1 false) ≡ Some causes.TooMany }
    ensures full_with_server { refusal_of (crowd 255 0) (boot_under 0 1 true) ≡ Some causes.TooMany }
    ensures full_without_blocks { refusal_of (crowd 255 0) (boot_under 255 45 false) ≡ Some causes.TooMany }
    ensures full_elsewhere { refusal_of (crowd 255 0) (boot_under 256 1 false) ≡ Some causes.NoEnclave }
    ensures last_start { refusal_of (crowd 0 1023) (start_at 0) ≡ None }
    ensures all_started { refusal_of (crowd 0 1024) (start_at 0) ≡ Some causes.TooMany }
    ensures started_elsewhere { refusal_of (crowd 0 1024) (start_at 1) ≡ Some causes.NoEnclave }
{}

/// An enclave that knows its way and is admitted drops what brings it nothing: a second here, a second admit, an admit for an enclave to
/// which it has no way back, a register that would go back to where it came from, and a record of its own. No worked scenario
/// brings such records.
pub fn needless_records_are_dropped()
    ensures second_here { record_lines learned (numbered 2) (here_of (numbered 2)) ≡ dropped }
    ensures second_admit { record_lines learned host (admit_of host (numbered 1)) ≡ dropped }
    ensures admit_without_a_way_back { record_lines learned host (admit_of host (numbered 5)) ≡ dropped }
    ensures register_from_the_way { record_lines learned host (register_of (numbered 5)) ≡ noted 5 host }
    ensures own_register { record_lines learned (numbered 2) (register_of (numbered 1)) ≡ dropped }
{}

/// A name counts for a make that waits, under a segid that isn't live in its enclave. Of records that no worked scenario brings are dropped: a
/// name for a make that was answered, for one that was never issued, and under a segid that is live; what would go back to the way
/// that it came over; and the end of a name that stands for another enclave, or that doesn't stand.
pub fn needless_names_are_dropped()
    ensures first_name { record_lines asking host (named_record host (numbered 1) 2 (segid_of 2)) ≡ answered 2 }
    ensures later_name { record_lines asking host (named_record host (numbered 1) 1 (segid_of 2)) ≡ dropped }
    ensures name_of_no_call { record_lines asking host (named_record host (numbered 1) 3 (segid_of 2)) ≡ dropped }
    ensures name_that_is_live { record_lines asking host (named_record host (numbered 1) 2 (segid_of 1)) ≡ dropped }
    ensures request_from_the_way { record_lines learned host (name_request (numbered 5) 1) ≡ dropped }
    ensures end_from_the_way { record_lines learned host (unname_record (numbered 5) 1 (segid_of 1)) ≡ dropped }
    ensures name_without_a_route { record_lines learned host (named_record host (numbered 5) 1 (segid_of 1)) ≡ dropped }
    ensures own_end { record_lines naming (numbered 1) (unname_record (numbered 1) 1 (segid_of 1)) ≡ lines.Unnamed (segid_of 1) ∷ [] }
    ensures end_of_anothers { record_lines naming (numbered 2) (unname_record (numbered 2) 1 (segid_of 1)) ≡ dropped_there }
    ensures end_of_none { record_lines naming (numbered 1) (unname_record (numbered 1) 1 (segid_of 2)) ≡ dropped_there }
{}

/// The make of a child goes over the places that a make has, one after the other: before it is issued, while its request and its name are
/// under way, while its segment is live, while the end of its name is under way, and afterwards.
pub fn makes_have_their_places()
    ensures unborn { make_then 6 [] ≡ Unborn }
    ensures asking { make_then 7 [] ≡ Asking }
    ensures answering { make_then 7 request_comes ≡ Answering }
    ensures held { make_then 8 [] ≡ Held }
    ensures undoing { make_then 10 [] ≡ Undoing }
    ensures done { make_then 11 [] ≡ Done }
{}
