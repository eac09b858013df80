// Setting one place of a record. A field goes by its number: 0 n, 1 m, 2 ticks of job A, 3 mask B of job A, 4 from, 5 to and 6 weight
// of delay A, 7 clash and 8 side of the path's place A, 9 best, 10 place A of best's starts, 11 total, 12 ended, 13 edition, 14 whether job A has a line,
// 15 its earliest and 16 its latest start, 17 the rest of station A.
use model::Search;

// The record with one place set; none where there is no such field, place or value. A weight is 32,768 more than it is worth, and 65,536 sets no best.
// The field's number comes with the input and names no step that is stored: a match.
pub fn set(search: Search, [field, a, b, value]: [u32; 4]) -> Option<Search> {
    let mut next = search;
    let a = a as usize;
    let b = b as usize;
    match field {
        0 => next.batch.n = u8::try_from(value).ok()?,
        1 => next.batch.m = u8::try_from(value).ok()?,
        2 => next.batch.jobs.get_mut(a)?.ticks = u16::try_from(value).ok()?,
        3 => *next.batch.jobs.get_mut(a)?.masks.get_mut(b)? = u16::try_from(value).ok()?,
        4 => next.batch.delays.get_mut(a)?.from = u8::try_from(value).ok()?,
        5 => next.batch.delays.get_mut(a)?.to = u8::try_from(value).ok()?,
        6 => next.batch.delays.get_mut(a)?.weight = weight_of(u16::try_from(value).ok()?),
        7 => next.path.get_mut(a)?.clash = u16::try_from(value).ok()?,
        8 => next.path.get_mut(a)?.side = u16::try_from(value).ok()?,
        9 if value == 65536 => next.best = None,
        9 => next.best = Some(u16::try_from(value).ok()?),
        10 => *next.starts.get_mut(a)? = u16::try_from(value).ok()?,
        11 => next.total = value,
        12 if value < 2 => next.ended = value == 1,
        13 => next.batch.edition = u16::try_from(value).ok()?,
        14 => next.batch.windows.get_mut(a)?.lined = u16::try_from(value).ok()?,
        15 => next.batch.windows.get_mut(a)?.earliest = u16::try_from(value).ok()?,
        16 => next.batch.windows.get_mut(a)?.latest = u16::try_from(value).ok()?,
        17 => *next.batch.rests.get_mut(a)? = u8::try_from(value).ok()?,
        _ => return None,
    }
    Some(next)
}

// The weight of a number that is 32,768 more.
fn weight_of(number: u16) -> i16 {
    (number ^ 0x8000).cast_signed()
}
