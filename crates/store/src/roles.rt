//! What a kind means to the macro store. Rules: "A command on the wire", the table's last column.
ghost use Rattle.std.specs.Prelude.{◌≡◌};
ghost use Rattle.store.specs.Roles.{role_of, is_plain, is_open, is_close, is_run, is_clear, number_of};

use wire::Kind;

/// The role of a kind; the nine plain kinds are one. OPEN and RUN have a macro's number, WAIT its seconds.
#[derive(Clone, Copy, Debug, PartialEq, Eq)]
pub enum Role {
    Plain,
    Open(u8),
    Close,
    Run(u8),
    Wait(u16),
    Stop,
    Clear,
}

impl Role {
    /// The role of a kind. No `From`, which would be public.
    pub(crate) fn of(kind: Kind) -> Role
        ensures { result ≡ role_of kind }
    {
        match kind {
            Kind::ImgPwr(_)
            | Kind::ImgRegion(_, _)
            | Kind::ImgTrack(_, _)
            | Kind::TrkAlg(_)
            | Kind::TrkLoop(_)
            | Kind::ImgImage(_, _)
            | Kind::TrkGoal(_, _)
            | Kind::TlmFlush
            | Kind::FlushAuto(_) => Role::Plain,
            Kind::Open(number) => Role::Open(number),
            Kind::Close => Role::Close,
            Kind::Run(number) => Role::Run(number),
            Kind::Wait(seconds) => Role::Wait(seconds),
            Kind::Stop => Role::Stop,
            Kind::Clear => Role::Clear,
        }
    }

    pub(crate) fn is_plain(self) -> bool
        ensures { result ≡ is_plain self }
    {
        matches!(self, Role::Plain)
    }

    pub(crate) fn is_open(self) -> bool
        ensures { result ≡ is_open self }
    {
        matches!(self, Role::Open(_))
    }

    pub(crate) fn is_close(self) -> bool
        ensures { result ≡ is_close self }
    {
        matches!(self, Role::Close)
    }

    pub(crate) fn is_run(self) -> bool
        ensures { result ≡ is_run self }
    {
        matches!(self, Role::Run(_))
    }

    pub(crate) fn is_clear(self) -> bool
        ensures { result ≡ is_clear self }
    {
        matches!(self, Role::Clear)
    }

    /// The macro that OPEN or RUN names; 0 for the others.
    pub(crate) fn number(self) -> u8
        ensures { result ≡ number_of self }
    {
        match self {
            Role::Open(number) | Role::Run(number) => number,
            _ => 0,
        }
    }
}
