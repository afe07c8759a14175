// Numbers out of a request's bytes, and slices out of its numbers.

// Numbers that a lent slice holds.
pub(crate) trait Entry: Copy + PartialEq + Drop + Into<u64> {
    // What every place of the lent slices holds before a call.
    const BLANK: Self;

    // The lowest binary digits of a number.
    fn of(n: usize) -> Self;
}

impl Entry for u8 {
    const BLANK: u8 = 9;

    fn of(n: usize) -> u8 {
        (n % 256) as u8
    }
}

impl Entry for u16 {
    const BLANK: u16 = 9;

    fn of(n: usize) -> u16 {
        (n % 65536) as u16
    }
}

impl Entry for u64 {
    const BLANK: u64 = 9;

    fn of(n: usize) -> u64 {
        n as u64
    }
}

// The number with one more digit at its end, or the largest number. What is no digit counts as 0.
fn append(n: usize, b: u8) -> usize {
    let digit = if b.is_ascii_digit() { b - b'0' } else { 0 };
    n.saturating_mul(10).saturating_add(digit as usize)
}

// Stores the numbers that the bytes hold, one space between, as far as there is place, and answers how many they are. A space at the end has no
// number after it.
pub(crate) fn read_numbers(numbers: &mut [usize], bytes: &[u8]) -> usize {
    let mut count: usize = 0;
    let mut value: usize = 0;
    let mut open = false;
    for &b in bytes {
        open = b != b' ';
        if open {
            value = append(value, b);
        } else {
            count = count.saturating_add(1);
            value = 0;
        }
        if let Some(place) = numbers.get_mut(count) {
            *place = value;
        }
    }
    if open { count.saturating_add(1) } else { count }
}

// The numbers of a request that were not read yet.
#[derive(Drop)]
pub(crate) struct Rest<'a> {
    pub(crate) numbers: &'a [usize],
}

// A list as it was asked for: so many numbers, of which those that are not there are 0.
#[derive(Drop)]
pub(crate) struct List<'a> {
    count: usize,
    numbers: &'a [usize],
}

impl<'a> Rest<'a> {
    // The next number, or 0 past the end.
    pub(crate) fn next(&mut self) -> usize {
        let Some((&n, rest)) = self.numbers.split_first() else {
            return 0;
        };
        self.numbers = rest;
        n
    }

    // The next list: its length and so many numbers.
    pub(crate) fn take_list(&mut self) -> List<'a> {
        let count = self.next();
        let (numbers, rest) = self.numbers.split_at(count.min(self.numbers.len()));
        self.numbers = rest;
        List { count, numbers }
    }
}

// The first places of an array, which are lent.
#[derive(Drop)]
pub(crate) struct Lent<T: Entry, const N: usize> {
    pub(crate) places: [T; N],
    pub(crate) long: usize,
}

impl<T: Entry, const N: usize> Lent<T, N> {
    // So many places, or all, which hold what a call may not have written.
    pub(crate) fn blank(long: usize) -> Lent<T, N> {
        Lent {
            places: [T::BLANK; N],
            long: long.min(N),
        }
    }

    // The list as far as it fits.
    pub(crate) fn of(list: &List) -> Lent<T, N> {
        let long = list.count.min(N);
        let mut places = [T::BLANK; N];
        for (i, place) in places.iter_mut().enumerate().take(long) {
            *place = T::of(list.numbers.get(i).copied().unwrap_or(0));
        }
        Lent { places, long }
    }

    pub(crate) fn slice(&self) -> &[T] {
        &self.places[..self.long.min(N)]
    }

    // Whether the places from `from` on hold what they held before the call.
    pub(crate) fn is_kept(&self, from: usize) -> bool {
        keeps(&self.places, from)
    }
}

// Whether the places from `from` on hold what every place held before the call.
pub(crate) fn keeps<T: Entry>(places: &[T], from: usize) -> bool {
    for &x in &places[from.min(places.len())..] {
        if x != T::BLANK {
            return false;
        }
    }
    true
}
