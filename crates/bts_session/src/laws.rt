// What holds of all sessions that texts say.
ghost use Rattle.std.specs.Prelude.{IfOk};
ghost use Rattle.bts_names.specs.Names.{Bytes};
ghost use Rattle.bts_session.specs.Sessions.{session_of, text_limit};
ghost use Rattle.bts_session.specs.Sizes.{IsShortSession};

/// No statement of a session says more bytes for a container than a text may have.
pub fn what_a_session_gives_is_short()
    ensures { (bytes : Bytes) → IfOk (session_of bytes) (IsShortSession text_limit) }
{}
