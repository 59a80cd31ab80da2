// What a command is about, and where that is found.
ghost use Rattle.std.specs.Prelude.{◌≡◌, Ok};
ghost use Rattle.bts_act.specs.Replies.{refusal};
ghost use Rattle.bts_rows.specs.Places as places;

use crate::replies::refused;
use bts_command::{Command, Spot, Target};
use bts_names::{Path, Reason, Reply, Resp};
use bts_rows::{About, Held, Here, Thing, Unfound};
use bts_tree::Scope;

/// What a command is about.
#[tactic(auto, unfolding(bts_rows::specs::Places::about_of))]
pub(crate) fn about(command: &Command) -> About
    ensures { result ≡ places.about_of command.now }
{
    match command {
        Command::DefineActivity { .. } | Command::DeleteActivity { .. } => About::Family(None),
        Command::Run { target, .. } => About::Activity(Some(*target)),
        Command::Link { target, .. } => About::Activity(Some(*target)),
        Command::Check { target } => about_check(target),
        Command::Cancel { target } => About::Family(Some(*target)),
        Command::Reset { target } => About::Family(Some(*target)),
        Command::Suspend { target } => About::Activity(Some(*target)),
        Command::Resume { target } => About::Activity(Some(*target)),
        Command::PutContainer { spot, .. } => About::Writes(*spot),
        Command::GetContainer { spot, .. } => About::Reads(*spot),
        Command::DeleteContainer { spot, .. } => About::Writes(*spot),
        Command::ForceTimer { target, .. } => About::Activity(*target),
        Command::DefineProcess { .. }
        | Command::AcquireProcess
        | Command::AcquireActivity { .. }
        | Command::PurgeProcess
        | Command::Return { .. }
        | Command::Abend { .. }
        | Command::Rollback => About::Nothing,
        Command::DefineInput { .. }
        | Command::DefineComposite { .. }
        | Command::AddSubevent { .. }
        | Command::RemoveSubevent { .. }
        | Command::DeleteEvent { .. }
        | Command::TestEvent { .. }
        | Command::RetrieveReattach
        | Command::RetrieveSubevent { .. }
        | Command::DefineTimer { .. }
        | Command::CheckTimer { .. }
        | Command::DeleteTimer { .. } => About::Activity(None),
    }
}

/// CHECK of a child tells its parent.
fn about_check(target: &Target) -> About
    ensures { result ≡ places.about_check target.now }
{
    match target {
        Target::Activity(_) => About::Family(Some(*target)),
        _ => About::Activity(Some(*target)),
    }
}

/// The thing that a command is about.
pub(crate) fn find(scope: &Scope, here: &Here, about: &About) -> Result<Thing, Unfound>
    ensures { result ≡ places.find here.now scope.now.process about.now }
{
    match about {
        About::Activity(target) => an_activity(find_activity(scope, here, target)),
        About::Family(target) => a_family(find_activity(scope, here, target)),
        About::Reads(spot) => find_place(scope, here, &Thing::Shown, spot),
        About::Writes(spot) => {
            if is_read_only(here, spot) {
                return Err(Unfound::ReadOnly);
            }
            find_place(scope, here, &Thing::Containers, spot)
        }
        About::Nothing => Err(Unfound::Place),
    }
}

/// The path of the frame's activity, or of the one that a target names.
fn find_activity(scope: &Scope, here: &Here, target: &Option<Target>) -> Result<Path, Unfound>
    ensures { result ≡ places.find_activity here.now scope.now.process target.now }
{
    match target {
        None => own_path(here),
        Some(target) => find_target(scope, here, target),
    }
}

fn own_path(here: &Here) -> Result<Path, Unfound>
    ensures { result ≡ places.own_path here.now }
{
    match here {
        Here::Activity(path) => Ok(*path),
        Here::Request(_) => Err(Unfound::Place),
    }
}

fn find_target(scope: &Scope, here: &Here, target: &Target) -> Result<Path, Unfound>
    ensures { result ≡ places.find_target here.now scope.now.process target.now }
{
    match here {
        Here::Activity(path) => find_child(scope, path, target),
        Here::Request(held) => find_acquired(*held, target),
    }
}

fn find_child(scope: &Scope, at: &Path, target: &Target) -> Result<Path, Unfound>
    ensures { result ≡ places.child_target at.now scope.now.process target.now }
{
    let Target::Activity(name) = *target else {
        return Err(Unfound::Place);
    };
    match scope.child(at, &name) {
        Some((path, _)) => Ok(path),
        None => Err(Unfound::Missing),
    }
}

fn find_acquired(held: Held, target: &Target) -> Result<Path, Unfound>
    ensures { result ≡ places.acquired_target held target.now }
{
    match target {
        Target::Activity(_) => Err(Unfound::Place),
        Target::AcqProcess => acquired_root(held),
        Target::AcqActivity => acquired_activity(held),
    }
}

fn acquired_root(held: Held) -> Result<Path, Unfound>
    ensures { result ≡ places.acquired_root held }
{
    match held {
        Held::Process => Ok(Path::root()),
        _ => Err(Unfound::NotAcquired),
    }
}

fn acquired_activity(held: Held) -> Result<Path, Unfound>
    ensures { result ≡ places.acquired_activity held }
{
    match held {
        Held::Activity(path) => Ok(path),
        _ => Err(Unfound::NotAcquired),
    }
}

fn an_activity(found: Result<Path, Unfound>) -> Result<Thing, Unfound>
    ensures { result ≡ places.an_activity found }
{
    match found {
        Ok(path) => Ok(Thing::Activity(path)),
        Err(why) => Err(why),
    }
}

fn a_family(found: Result<Path, Unfound>) -> Result<Thing, Unfound>
    ensures { result ≡ places.a_family found }
{
    match found {
        Ok(path) => Ok(Thing::Family(path)),
        Err(why) => Err(why),
    }
}

/// The containers of a place, with those of the process as this thing.
fn find_place(scope: &Scope, here: &Here, thing: &Thing, spot: &Spot) -> Result<Thing, Unfound>
    ensures { result ≡ places.find_place here.now scope.now.process thing.now spot.now }
{
    match spot {
        Spot::Own => an_activity(own_path(here)),
        Spot::Process => own_process(here, thing),
        Spot::Of(target) => find_target_place(scope, here, thing, target),
    }
}

fn own_process(here: &Here, thing: &Thing) -> Result<Thing, Unfound>
    ensures { result ≡ places.own_process here.now thing.now }
{
    match here {
        Here::Activity(_) => Ok(*thing),
        Here::Request(_) => Err(Unfound::Place),
    }
}

fn find_target_place(
    scope: &Scope,
    here: &Here,
    thing: &Thing,
    target: &Target,
) -> Result<Thing, Unfound>
    ensures { result ≡ places.target_place here.now scope.now.process thing.now target.now }
{
    match target {
        Target::AcqProcess => match find_target(scope, here, target) {
            Ok(path) => a_process(scope, thing, &path),
            Err(why) => Err(why),
        },
        _ => an_activity(find_target(scope, here, target)),
    }
}

/// The process is there where its root is.
fn a_process(scope: &Scope, thing: &Thing, path: &Path) -> Result<Thing, Unfound>
    ensures { result ≡ places.a_process scope.now.process thing.now (Ok path.now) }
{
    if scope.activity(path).is_some() {
        return Ok(*thing);
    }
    Err(Unfound::Missing)
}

/// Whether a place's containers are only read there: those of the process, but by the root.
fn is_read_only(here: &Here, spot: &Spot) -> bool
    ensures { result ≡ places.is_read_only here.now spot.now }
{
    let Here::Activity(path) = here else {
        return false;
    };
    matches!(spot, Spot::Process) && !path.as_slice().is_empty()
}

/// The reply of a command that finds nothing.
pub(crate) fn reply_of(why: Unfound) -> Reply
    ensures { result ≡ refusal (places.resp_of why) (places.reason_of why) }
{
    match why {
        Unfound::Place => refused(Resp::Invreq, Reason::Place),
        Unfound::NotAcquired => refused(Resp::Invreq, Reason::NotAcquired),
        Unfound::Missing => refused(Resp::Activityerr, Reason::Missing),
        Unfound::ReadOnly => refused(Resp::Invreq, Reason::ReadOnly),
    }
}
