//! The numbers of protocols (RFC 1661, section 2, and the assigned numbers of PPP).

/// A datagram of the Internet Protocol (RFC 1332).
pub const IP: u16 = 0x0021;
/// A piece of a multilink packet (RFC 1990, section 3).
pub const MULTILINK: u16 = 0x003d;
/// The Internet Protocol Control Protocol (RFC 1332).
pub const IPCP: u16 = 0x8021;
/// The Link Control Protocol (RFC 1661).
pub const LCP: u16 = 0xc021;
/// The Password Authentication Protocol (RFC 1334).
pub const PAP: u16 = 0xc023;
/// The Challenge-Handshake Authentication Protocol (RFC 1994).
pub const CHAP: u16 = 0xc223;
