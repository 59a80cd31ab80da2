// The words of units of work, each behind a space.
ghost use Rattle.std.specs.Prelude.{◌≡◌, [], ◌∷◌, ◌++◌, OnOk};
ghost use Rattle.bts_report.specs.Reports.{spaced};
ghost use Rattle.bts_report.specs.Words.{activity_words, unit_words, end_words};

use crate::words::{add_path, add_word};
use bts_command::{End, UnitKind};
use bts_names::{Blob, Key, NoMemory, Path};

pub fn add_key(out: &mut Blob, key: &Key) -> Result<(), NoMemory>
    ensures { OnOk result (out.new ≡ out.old ++ spaced (key.now.ptype ∷ key.now.pname ∷ [])) }
{
    add_word(out, key.ptype.as_bytes())?;
    add_word(out, key.pname.as_bytes())
}

fn add_activity(out: &mut Blob, kind: &[u8], key: &Key, path: &Path) -> Result<(), NoMemory>
    ensures { OnOk result (out.new ≡ out.old ++ spaced (kind.now ∷ activity_words key.now path.now)) }
{
    add_word(out, kind)?;
    add_key(out, key)?;
    add_path(out, path)
}

pub fn add_unit_kind(out: &mut Blob, unit: &UnitKind) -> Result<(), NoMemory>
    ensures { OnOk result (out.new ≡ out.old ++ spaced (unit_words unit.now)) }
{
    match unit {
        UnitKind::Request { key, .. } => {
            add_word(out, b"REQUEST")?;
            add_key(out, key)
        }
        UnitKind::Activation { key, path } => add_activity(out, b"ACTIVATION", key, path),
        UnitKind::Notice { key, path } => add_activity(out, b"NOTICE", key, path),
        UnitKind::Expiry { key, path, timer } => {
            add_activity(out, b"EXPIRY", key, path)?;
            add_word(out, timer.as_bytes())
        }
        UnitKind::Clock { .. } => add_word(out, b"CLOCK"),
        UnitKind::Settle { .. } => add_word(out, b"SETTLE"),
        UnitKind::Browse { .. } => add_word(out, b"BROWSE"),
    }
}

pub fn add_end(out: &mut Blob, end: &End) -> Result<(), NoMemory>
    ensures { OnOk result (out.new ≡ out.old ++ spaced (end_words end.now)) }
{
    match end {
        End::Commit => add_word(out, b"COMMIT"),
        End::Rollback => add_word(out, b"ROLLBACK"),
        End::Abend(code) => {
            add_word(out, b"ABEND")?;
            add_word(out, code.as_bytes())
        }
    }
}
