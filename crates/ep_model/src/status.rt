//! Statuses of the memcached binary protocol, as kv_engine sends them.

pub const SUCCESS: u16 = 0x00;

pub const KEY_NOT_FOUND: u16 = 0x01;

pub const KEY_EXISTS: u16 = 0x02;

pub const TOO_LARGE: u16 = 0x03;

pub const INVALID: u16 = 0x04;

pub const NOT_STORED: u16 = 0x05;

pub const BAD_DELTA: u16 = 0x06;

pub const NOT_MY_VBUCKET: u16 = 0x07;

pub const OUT_OF_RANGE: u16 = 0x22;

pub const UNKNOWN_COMMAND: u16 = 0x81;

pub const OUT_OF_MEMORY: u16 = 0x82;

pub const NOT_SUPPORTED: u16 = 0x83;

pub const TEMPORARY_FAILURE: u16 = 0x86;
