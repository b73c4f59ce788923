//! The statuses of the process.

/// All of the input was read, and all of it is answered.
pub const ENDED: u8 = 0;

/// The words are none that the program takes.
pub const WORDS_REFUSED: u8 = 2;

/// A read failed.
pub const READ_FAULT: u8 = 3;

/// A write failed.
pub const WRITE_FAULT: u8 = 4;

/// Want of memory, other than in a call of the desk.
pub const NO_MEMORY: u8 = 5;

/// The tables of the keeper break a rule.
pub const BAD_TABLES: u8 = 6;

/// The keeper failed as the desk was opened.
pub const KEEPER_FAULT: u8 = 7;

/// A line or a message is in no form.
pub const BAD_LINE: u8 = 8;

/// A limit was passed.
pub const PAST_LIMIT: u8 = 9;

/// A door failed.
pub const DOOR_FAULT: u8 = 10;
