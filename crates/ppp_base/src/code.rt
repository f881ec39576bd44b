//! The codes of control packets (RFC 1661, section 5).

pub const CONFIGURE_REQUEST: u8 = 1;

pub const CONFIGURE_ACK: u8 = 2;

pub const CONFIGURE_NAK: u8 = 3;

pub const CONFIGURE_REJECT: u8 = 4;

pub const TERMINATE_REQUEST: u8 = 5;

pub const TERMINATE_ACK: u8 = 6;

pub const CODE_REJECT: u8 = 7;
/// This code and the ones behind it are those of LCP alone.
pub const PROTOCOL_REJECT: u8 = 8;

pub const ECHO_REQUEST: u8 = 9;

pub const ECHO_REPLY: u8 = 10;

pub const DISCARD_REQUEST: u8 = 11;
