// Lists of numbers with commas between, possibly none.
use crate::number::read_number;
use word_writer::put::{put_byte, put_number};

const COMMA: u8 = b',';

// The items of a field, at the start of the slice. More than it holds are malformed too, as is a number that no item can be.
pub fn read_list<'a, T: TryFrom<u64>>(field: &[u8], items: &'a mut [T]) -> Option<&'a [T]>
where
    T: Drop,
    T::Error: Drop,
{
    let parts = if field.is_empty() {
        0
    } else {
        field.split(|byte| *byte == COMMA).count()
    };
    let read = items.get_mut(..parts)?;
    for (item, part) in read.iter_mut().zip(field.split(|byte| *byte == COMMA)) {
        *item = T::try_from(read_number(part)?).ok()?;
    }
    Some(read)
}

// The items with commas between, written at a place of a page. The place after them comes back.
pub fn put_list<T: Copy + Into<u64>>(page: &mut [u8], at: usize, items: &[T]) -> usize {
    let mut next = at;
    for (i, item) in items.iter().enumerate() {
        if 0 < i {
            next = put_byte(page, next, COMMA);
        }
        next = put_number(page, next, (*item).into());
    }
    next
}
