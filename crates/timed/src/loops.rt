// The library's inner loops as C functions, for bench/ alone. A function that asks something of its caller is called only where that holds; else the
// answer is `NOT_ASKED`.
use base_cursor::Cursor;
use format::{MOST_SAMPLES, Refusal, VARIANTS_TO_A_BLOCK};
use read_list::ListRule;

// The answer of an inner function that was not called.
const NOT_ASKED: usize = 18446744073709551615;

fn of_packed(step: Result<Cursor, Refusal>) -> usize {
    match step {
        Ok(next) => next.at,
        Err(_) => NOT_ASKED,
    }
}

#[unsafe(no_mangle)]
pub extern "C" fn timed_unpack_categories(s: &[u8], n: usize, row: &mut [u8]) -> usize {
    if n > MOST_SAMPLES {
        return NOT_ASKED;
    }
    if n > row.len() {
        return NOT_ASKED;
    }
    of_packed(read_packed::unpack_categories(s, Cursor { at: 0 }, n, row))
}

#[unsafe(no_mangle)]
pub extern "C" fn timed_unpack_pair(
    s: &[u8],
    n: usize,
    lower: u8,
    higher: u8,
    row: &mut [u8],
) -> usize {
    if n > MOST_SAMPLES {
        return NOT_ASKED;
    }
    if n > row.len() {
        return NOT_ASKED;
    }
    of_packed(read_packed::unpack_pair(s, Cursor { at: 0 }, n, lower, higher, row))
}

#[unsafe(no_mangle)]
pub extern "C" fn timed_copy(from: &[u8], n: usize, to: &mut [u8]) {
    if n > from.len() {
        return;
    }
    if n > to.len() {
        return;
    }
    base_rows::copy(from, n, to);
}

#[unsafe(no_mangle)]
pub extern "C" fn timed_clear(row: &mut [u8], n: usize) {
    if n > row.len() {
        return;
    }
    base_rows::clear(row, n);
}

#[unsafe(no_mangle)]
pub extern "C" fn timed_exchange_row(row: &mut [u8], n: usize) {
    if n > row.len() {
        return;
    }
    base_rows::exchange_row(row, n);
}

// The list at `at` of the file cut where its record ends; against the row, as in kinds 2 and 3.
#[unsafe(no_mangle)]
pub extern "C" fn timed_put_list(s: &[u8], at: usize, n: usize, row: &mut [u8]) -> usize {
    if at > s.len() {
        return NOT_ASKED;
    }
    if n > MOST_SAMPLES {
        return NOT_ASKED;
    }
    if n > row.len() {
        return NOT_ASKED;
    }
    match read_list::put_list(s, n, ListRule::OffRow, false, Cursor { at }, row) {
        Ok(next) => next.at,
        Err(_) => NOT_ASKED,
    }
}

// The first type that is not allowed, of all n of a block; n if there is none.
#[unsafe(no_mangle)]
pub extern "C" fn timed_bad_in_block(types: &[u8], n: usize, half: bool) -> usize {
    if n == 0 {
        return NOT_ASKED;
    }
    if n > VARIANTS_TO_A_BLOCK {
        return NOT_ASKED;
    }
    if head_types::types_size(n, half) > types.len() {
        return NOT_ASKED;
    }
    match head_types::bad_in_block(types, 0, n, half) {
        Some(i) => i.0,
        None => n,
    }
}

// The sum of lengths of 1, 2, 3 or 4 bytes that fill the slice.
#[unsafe(no_mangle)]
pub extern "C" fn timed_sum_lengths(lengths: &[u8], width: usize) -> u64 {
    let size = lengths.len();
    if size > VARIANTS_TO_A_BLOCK {
        return 0;
    }
    match width {
        1 => head_numbers::sum_lengths(lengths, 0, size, 1),
        2 => head_numbers::sum_lengths(lengths, 0, size / 2, 2),
        3 => head_numbers::sum_lengths(lengths, 0, size / 3, 3),
        4 => head_numbers::sum_lengths(lengths, 0, size / 4, 4),
        _ => 0,
    }
}

#[unsafe(no_mangle)]
pub extern "C" fn timed_exchange_values(s: &mut [u8], n: usize) {
    if n > MOST_SAMPLES {
        return;
    }
    if n.div_ceil(4) > s.len() {
        return;
    }
    flip_bytes::exchange_values(s, 0, n);
}

#[unsafe(no_mangle)]
pub extern "C" fn timed_complement_bits(s: &mut [u8], n: usize) {
    if n > MOST_SAMPLES {
        return;
    }
    if n.div_ceil(8) > s.len() {
        return;
    }
    flip_bytes::complement_bits(s, 0, n);
}

// The first category above 3, past the last if there is none.
#[unsafe(no_mangle)]
pub extern "C" fn timed_first_above_3(row: &[u8]) -> usize {
    call_write::first_above_3(row)
}
