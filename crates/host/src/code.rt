// Response codes: element 39 of a reply, as a number. They are numbers and not an enum, since a host may decline with any code of 1
// to 99, and a repeat is answered by the code that the journal kept. These are the ones that the switch and the hosts here give.

pub const APPROVED: u8 = 0;

pub const DO_NOT_HONOR: u8 = 5;

pub const INVALID_TRANSACTION: u8 = 12;

pub const INVALID_AMOUNT: u8 = 13;

pub const INVALID_CARD: u8 = 14;

pub const NO_SUCH_ISSUER: u8 = 15;

pub const NO_ACTION_TAKEN: u8 = 21;

pub const NO_SUCH_RECORD: u8 = 25;

pub const FORMAT_ERROR: u8 = 30;

pub const NOT_SUFFICIENT_FUNDS: u8 = 51;

pub const EXCEEDS_LIMIT: u8 = 61;

pub const CUTOFF_PASSED: u8 = 90;

pub const ISSUER_INOPERATIVE: u8 = 91;

pub const DUPLICATE: u8 = 94;

pub const NO_ROOM: u8 = 96;
