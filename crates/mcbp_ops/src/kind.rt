// The table of opcodes.
ghost use Rattle.std.specs.Prelude.{◌≡◌, ℕ, false, IfOk, IfErr};
ghost use Rattle.mcbp_ops.specs.Table.{kind_of, kind_result};
ghost use Rattle.mcbp_ops.specs.Text.{is_silent, hides};

use crate::op::Bad;
use crate::opcodes::*;
use ep_model::StoreKind;
use ep_model::status::{KEY_NOT_FOUND, SUCCESS};

/// What an opcode asks for. A quiet form has the kind of its plain form.
#[derive(Clone, Copy)]
pub enum Kind {
    /// Where `keyed` is true the reply shows the key.
    Get { keyed: bool },
    Store(StoreKind),
    /// Prepend where `front` is true, else Append.
    Join { front: bool },
    /// Decrement where `down` is true, else Increment.
    Count { down: bool },
    Delete,
    /// Get-and-touch where `fetch` is true, else Touch.
    Touch { fetch: bool },
    Observe,
    Failovers,
    SetState,
    GetState,
    Stat,
    Hello,
    Noop,
    Version,
    Quit,
}

/// Which replies of an opcode aren't written: of a quiet Get, or Get-and-touch, that nothing was found, and of another
/// quiet form that all went well. A quiet Quit hides each reply, so ask this only of a frame that isn't refused.
#[derive(Clone, Copy)]
pub enum Silence {
    Never,
    Misses,
    Successes,
    Always,
}

impl Silence {
    /// Whether a reply of this status isn't written.
    pub fn hides(self, status: u16) -> bool
        ensures { result ≡ hides self status }
    {
        match self {
            Silence::Never => false,
            Silence::Misses => status == KEY_NOT_FOUND,
            Silence::Successes => status == SUCCESS,
            Silence::Always => true,
        }
    }
}

/// What an opcode asks for, and which of its replies aren't written.
#[derive(Clone, Copy)]
pub struct Form {
    pub kind: Kind,
    pub silence: Silence,
}

fn plain(kind: Kind) -> Form
    ensures { result ≡ record { kind = kind; silence = Silence.Never } }
{
    Form {
        kind,
        silence: Silence::Never,
    }
}

fn hiding_misses(kind: Kind) -> Form
    ensures { result ≡ record { kind = kind; silence = Silence.Misses } }
{
    Form {
        kind,
        silence: Silence::Misses,
    }
}

fn hiding_successes(kind: Kind) -> Form
    ensures { result ≡ record { kind = kind; silence = Silence.Successes } }
{
    Form {
        kind,
        silence: Silence::Successes,
    }
}

fn hiding_all(kind: Kind) -> Form
    ensures { result ≡ record { kind = kind; silence = Silence.Always } }
{
    Form {
        kind,
        silence: Silence::Always,
    }
}

/// The form of an opcode, or how it is refused whatever its frame holds.
pub fn form_of(opcode: u8) -> Result<Form, Bad>
    ensures kind { kind_result result ≡ kind_of opcode }
    ensures silence { IfOk result (λ form. (status : ℕ) → is_silent opcode status
        ≡ hides form.silence status) }
    ensures refused { IfErr result (λ _. (status : ℕ) → is_silent opcode status ≡ false) }
{
    match opcode {
        GET => Ok(plain(Kind::Get { keyed: false })),
        GET_QUIETLY => Ok(hiding_misses(Kind::Get { keyed: false })),
        GET_KEY => Ok(plain(Kind::Get { keyed: true })),
        GET_KEY_QUIETLY => Ok(hiding_misses(Kind::Get { keyed: true })),
        SET => Ok(plain(Kind::Store(StoreKind::Set))),
        SET_QUIETLY => Ok(hiding_successes(Kind::Store(StoreKind::Set))),
        ADD => Ok(plain(Kind::Store(StoreKind::Add))),
        ADD_QUIETLY => Ok(hiding_successes(Kind::Store(StoreKind::Add))),
        REPLACE => Ok(plain(Kind::Store(StoreKind::Replace))),
        REPLACE_QUIETLY => Ok(hiding_successes(Kind::Store(StoreKind::Replace))),
        APPEND => Ok(plain(Kind::Join { front: false })),
        APPEND_QUIETLY => Ok(hiding_successes(Kind::Join { front: false })),
        PREPEND => Ok(plain(Kind::Join { front: true })),
        PREPEND_QUIETLY => Ok(hiding_successes(Kind::Join { front: true })),
        INCREMENT => Ok(plain(Kind::Count { down: false })),
        INCREMENT_QUIETLY => Ok(hiding_successes(Kind::Count { down: false })),
        DECREMENT => Ok(plain(Kind::Count { down: true })),
        DECREMENT_QUIETLY => Ok(hiding_successes(Kind::Count { down: true })),
        DELETE => Ok(plain(Kind::Delete)),
        DELETE_QUIETLY => Ok(hiding_successes(Kind::Delete)),
        TOUCH => Ok(plain(Kind::Touch { fetch: false })),
        GAT => Ok(plain(Kind::Touch { fetch: true })),
        GAT_QUIETLY => Ok(hiding_misses(Kind::Touch { fetch: true })),
        OBSERVE_SEQNO => Ok(plain(Kind::Observe)),
        GET_FAILOVER_LOG => Ok(plain(Kind::Failovers)),
        SET_VBUCKET => Ok(plain(Kind::SetState)),
        GET_VBUCKET => Ok(plain(Kind::GetState)),
        STAT => Ok(plain(Kind::Stat)),
        HELLO => Ok(plain(Kind::Hello)),
        NOOP => Ok(plain(Kind::Noop)),
        VERSION => Ok(plain(Kind::Version)),
        QUIT => Ok(plain(Kind::Quit)),
        QUIT_QUIETLY => Ok(hiding_all(Kind::Quit)),
        FLUSH | FLUSH_QUIETLY => Err(Bad::Unsupported),
        _ => Err(Bad::Unknown),
    }
}
