//! The tables of bytes of parentheses, compared with a plain scan of each byte.
use vers_trees::trees::bp::ByteTables;

// Returns the sum after a bit, from the start of a byte or from its end; each sum is increased by 8.
fn after_bit(sum: u64, byte: u8, position: u64, from_end: bool) -> u64 {
    if (u64::from(byte) >> (position % 8)) % 2 == u64::from(!from_end) {
        sum.saturating_add(1)
    } else {
        sum.saturating_sub(1)
    }
}

// Returns the first position, from one of the byte's ends, whose bit makes the sum `wanted`, or 7.
fn first_position(byte: u8, from_end: bool, wanted: u64) -> u64 {
    let mut sum = 8;
    for step in 0..8u64 {
        let position = if from_end { 7 - step } else { step };
        sum = after_bit(sum, byte, position, from_end);
        if sum == wanted {
            return position;
        }
    }
    7
}

// Returns the least and the greatest of the sums along a byte.
fn extremes(byte: u8, from_end: bool) -> (u64, u64) {
    let mut sum = 8;
    let mut least = 16;
    let mut greatest = 0;
    for step in 0..8u64 {
        let position = if from_end { 7 - step } else { step };
        sum = after_bit(sum, byte, position, from_end);
        least = sum.min(least);
        greatest = sum.max(greatest);
    }
    (least, greatest)
}

// Returns the position in an entry for a sum.
fn position_of(entry: u64, sum: u64) -> u64 {
    (entry >> (10 + 3 * (sum % 17))) % 8
}

// Returns true if an entry has the sums of a plain scan of its byte.
fn is_plain(entry: u64, byte: u8, from_end: bool) -> bool {
    let (least, greatest) = extremes(byte, from_end);
    for sum in 0..17 {
        if position_of(entry, sum) != first_position(byte, from_end, sum) {
            return false;
        }
    }
    entry % 32 == greatest && (entry >> 5) % 32 == least && entry >> 61 == 0
}

// Returns the first byte with a wrong entry.
fn wrong_byte(tables: &ByteTables) -> Option<u8> {
    for byte in 0..=255u8 {
        if !is_plain(tables.forward_entry(byte), byte, false)
            || !is_plain(tables.backward_entry(byte), byte, true)
        {
            return Some(byte);
        }
    }
    None
}

#[test]
fn all_entries_are_those_of_a_plain_scan(rt: HostRuntime) {
    assert!(rt; wrong_byte(&ByteTables::new()).is_none());
}

// Returns true if an entry has these least and greatest sums, and these positions for sums.
fn has_positions(entry: u64, greatest: u64, least: u64, positions: &[(u64, u64)]) -> bool {
    for (sum, position) in positions {
        if position_of(entry, *sum) != *position {
            return false;
        }
    }
    entry % 32 == greatest && (entry >> 5) % 32 == least
}

#[test]
fn entries_of_byte_seven(rt: HostRuntime) {
    let tables = ByteTables::new();
    let positions = [(9, 0), (10, 1), (11, 2), (8, 5), (7, 6), (6, 7)];
    assert!(rt; has_positions(tables.forward_entry(7), 11, 6, &positions));
    let positions = [(9, 7), (10, 6), (11, 5), (12, 4), (13, 3)];
    assert!(rt; has_positions(tables.backward_entry(7), 13, 9, &positions));
}
