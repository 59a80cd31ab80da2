// What holds of any commands, one after the other. The functions do nothing.
ghost use Rattle.std.specs.Prelude.{◌≡◌, List, length};
ghost use Rattle.bts_tree.specs.Scopes.{HeldProcess, gone_back, last_held, marked};
ghost use Rattle.bts_request.specs.Behind.{AreLeftByCommands};

/// Behind a mark, and any commands of requests and of activities, `back_to` gives the process, the marks and the saved
/// paths as they were: each command leaves the marks, and what is saved stays saved.
pub fn back_to_undoes_all_commands()
    ensures { (h : HeldProcess) (left : List HeldProcess) → AreLeftByCommands (marked h) left
        → gone_back (length h.marks) (last_held (marked h) left) ≡ h }
{}
