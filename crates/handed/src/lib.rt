// The two entries that hand out a part of lent memory are asked, and the very part is told.
#![tactic(auto)]

use reader::Place;
use telling::{tell_found, tell_value};

pub fn ask_look(m: &[u8], p: Place, out: &mut [u8]) -> usize {
    let looked_up = reader::look_up(m, p);
    tell_found(out, looked_up.sort, looked_up.text)
}

pub fn ask_read(book: &[u8], slot: usize, tag: u64, out: &mut [u8]) -> usize {
    let slip_value = book::read_slip(book, slot, tag);
    tell_value(out, slip_value.sort, slip_value.value)
}
