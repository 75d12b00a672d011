// Laws of the rules.
ghost use Rattle.std.specs.Prelude.{◌≡◌, true};
ghost use Rattle.xm_num.specs.declared.Enclave.{Enclave as Enclaves};
ghost use Rattle.xm_num.specs.declared.Pid.{Pid as Pids};
ghost use Rattle.xemem_language.specs.declared.call.Call.{Call as Calls};
ghost use Rattle.xemem_language.specs.declared.call.Show.{Show as Shows};
ghost use Rattle.enclave_rules.specs.View.{View};
ghost use Rattle.enclave_rules.specs.Calls.{call_lines, show_lines, AreCallLines, AreShowLines};

/// For a call an enclave writes a refusal, or lines of its own; what is shown of it changes nothing.
pub fn calls_write_own_lines()
    ensures calls { (holder : Enclaves) (v : View) (p : Pids) (call : Calls) → (v.core.holder ≡ true → holder ≡ v.me)
        → AreCallLines holder v.me (call_lines v p call) }
    ensures shows { (v : View) (show : Shows) → AreShowLines (show_lines v show) }
{}
