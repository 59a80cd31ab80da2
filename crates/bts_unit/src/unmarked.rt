// Processes without marks.
ghost use Rattle.std.specs.Prelude.{◌≡◌};
ghost use Rattle.bts_tree.specs.Scopes.{held_whole};

use bts_tree::Scope;

/// The marks go, and the process stays. No memory is taken.
pub(crate) fn unmark(scope: &mut Scope)
    ensures { scope.new ≡ held_whole scope.old.process }
{
    scope.facts();
    if scope.mark_count() > 0 {
        scope.keep(0);
    }
}

/// The process of a scope, held whole.
pub(crate) fn without_marks(mut scope: Scope) -> Scope
    ensures { result ≡ held_whole scope.process }
{
    unmark(&mut scope);
    scope
}
