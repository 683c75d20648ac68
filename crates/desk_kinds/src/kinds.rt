// The kinds, in the order of the table. They stay numbers, as an enum is no plainer: it adds a third match of nineteen arms, from a
// record's byte, to those of `limits` and `request`.
pub(crate) const START_SCAN: u8 = 0x01;

pub(crate) const START: u8 = 0x02;

pub(crate) const STOP: u8 = 0x03;

pub(crate) const ABORT: u8 = 0x04;

pub(crate) const GET_DESTINATION: u8 = 0x05;

pub(crate) const FETCH: u8 = 0x06;

pub(crate) const GET_STATE: u8 = 0x07;

pub(crate) const GET_SIDE_INFORMATION: u8 = 0x08;

pub(crate) const LOAD: u8 = 0x10;

pub(crate) const EJECT: u8 = 0x11;

pub(crate) const RESET: u8 = 0x12;

pub(crate) const SET_FEEDER_MODE: u8 = 0x13;

pub(crate) const GET_FEEDER_STATE: u8 = 0x14;

pub(crate) const GET_FEEDER_MODE: u8 = 0x15;

pub(crate) const BYTES: u8 = 0x20;

pub(crate) const SIDE_ENDED: u8 = 0x21;

pub(crate) const TRAY: u8 = 0x22;

pub(crate) const PATH: u8 = 0x23;

pub(crate) const TICK: u8 = 0x24;
