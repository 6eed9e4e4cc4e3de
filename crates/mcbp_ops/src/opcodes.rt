//! Opcodes of the memcached binary protocol, as kv_engine extends it. A name with `_QUIETLY` is the quiet form of the
//! opcode that has the name without it.

pub const GET: u8 = 0x00;

pub const SET: u8 = 0x01;

pub const ADD: u8 = 0x02;

pub const REPLACE: u8 = 0x03;

pub const DELETE: u8 = 0x04;

pub const INCREMENT: u8 = 0x05;

pub const DECREMENT: u8 = 0x06;

pub const QUIT: u8 = 0x07;

pub const FLUSH: u8 = 0x08;

pub const GET_QUIETLY: u8 = 0x09;

pub const NOOP: u8 = 0x0a;

pub const VERSION: u8 = 0x0b;

pub const GET_KEY: u8 = 0x0c;

pub const GET_KEY_QUIETLY: u8 = 0x0d;

pub const APPEND: u8 = 0x0e;

pub const PREPEND: u8 = 0x0f;

pub const STAT: u8 = 0x10;

pub const SET_QUIETLY: u8 = 0x11;

pub const ADD_QUIETLY: u8 = 0x12;

pub const REPLACE_QUIETLY: u8 = 0x13;

pub const DELETE_QUIETLY: u8 = 0x14;

pub const INCREMENT_QUIETLY: u8 = 0x15;

pub const DECREMENT_QUIETLY: u8 = 0x16;

pub const QUIT_QUIETLY: u8 = 0x17;

pub const FLUSH_QUIETLY: u8 = 0x18;

pub const APPEND_QUIETLY: u8 = 0x19;

pub const PREPEND_QUIETLY: u8 = 0x1a;

pub const TOUCH: u8 = 0x1c;

/// Get and touch.
pub const GAT: u8 = 0x1d;

pub const GAT_QUIETLY: u8 = 0x1e;

pub const HELLO: u8 = 0x1f;

pub const SET_VBUCKET: u8 = 0x3d;

pub const GET_VBUCKET: u8 = 0x3e;

pub const OBSERVE_SEQNO: u8 = 0x91;

pub const GET_FAILOVER_LOG: u8 = 0x96;
