// What is searched: coordinates, orders between them, and groups of orders of which one must hold.
ghost use Rattle.std.specs.Prelude.{◌<◌};

/// How many coordinates, orders and groups the tables have.
pub const MOST_COORDINATES: usize = 64;

pub const MOST_ORDERS: usize = 2048;

pub const MOST_GROUPS: usize = 512;

// How many orders a coordinate may stand in as the earlier, or as the later.
const ROW: usize = 32;

// How many others the arrangement may put a coordinate before, or behind: a corner, and one for each of the equal branches, one in the
// other, that a leaf lies in, each at least twice as large as the one in it.
const RISES: usize = 8;

/// The first coordinate lies before the second by at least the weight, a code: twice the distance.
#[derive(Clone, Copy)]
pub struct Order {
    pub weight: u32,
    pub group: u16,
    pub first: u8,
    pub second: u8,
}

/// The arrangement puts the first coordinate at or before the second, by the hint of the group.
#[derive(Clone, Copy, PartialEq, Eq)]
pub struct Rise {
    pub first: u8,
    pub second: u8,
    pub group: u16,
}

const NO_RISE: Rise = Rise {
    first: 0,
    second: 0,
    group: 0,
};

/// Coordinates, orders and groups. A number past a table's end names some entry of it, so no number is out of range; a table that is
/// full takes no more.
#[derive(Drop)]
pub struct Problem {
    pub coordinates: u8,
    orders: [Order; MOST_ORDERS],
    order_count: u16,
    groups: [[u16; 4]; MOST_GROUPS],
    group_count: u16,
    // the upper codes at first, and whether the limit is one
    highs: [u32; MOST_COORDINATES],
    limited: [bool; MOST_COORDINATES],
    // the orders that a coordinate stands in, as the earlier and as the later
    firsts: [u16; MOST_COORDINATES * ROW],
    first_count: [u8; MOST_COORDINATES],
    seconds: [u16; MOST_COORDINATES * ROW],
    second_count: [u8; MOST_COORDINATES],
    // the coordinates that the arrangement puts at or behind each one, and at or before it
    rising: [Rise; MOST_COORDINATES * RISES],
    rising_count: [u8; MOST_COORDINATES],
    falling: [Rise; MOST_COORDINATES * RISES],
    falling_count: [u8; MOST_COORDINATES],
}

// The place in a table of rows.
pub fn place(row: u8, at: u8) -> usize
    ensures { result < 2048 }
{
    row as usize % MOST_COORDINATES * ROW + at as usize % ROW
}

fn rise_place(row: u8, at: u8) -> usize
    ensures { result < 512 }
{
    row as usize % MOST_COORDINATES * RISES + at as usize % RISES
}

impl Problem {
    /// So many coordinates, each with this upper code; no order yet.
    pub fn new(coordinates: u8, high: u32) -> Problem {
        Problem {
            coordinates,
            orders: [Order {
                weight: 0,
                group: 0,
                first: 0,
                second: 0,
            }; MOST_ORDERS],
            order_count: 0,
            groups: [[0; 4]; MOST_GROUPS],
            group_count: 0,
            highs: [high; MOST_COORDINATES],
            limited: [true; MOST_COORDINATES],
            firsts: [0; MOST_COORDINATES * ROW],
            first_count: [0; MOST_COORDINATES],
            seconds: [0; MOST_COORDINATES * ROW],
            second_count: [0; MOST_COORDINATES],
            rising: [NO_RISE; MOST_COORDINATES * RISES],
            rising_count: [0; MOST_COORDINATES],
            falling: [NO_RISE; MOST_COORDINATES * RISES],
            falling_count: [0; MOST_COORDINATES],
        }
    }

    pub fn order(&self, number: u16) -> Order {
        self.orders[number as usize % MOST_ORDERS]
    }

    pub fn order_count(&self) -> u16 {
        self.order_count
    }

    pub fn group(&self, number: u16) -> [u16; 4] {
        self.groups[number as usize % MOST_GROUPS]
    }

    pub fn group_count(&self) -> u16 {
        self.group_count
    }

    pub fn high(&self, u: u8) -> u32 {
        self.highs[u as usize % MOST_COORDINATES]
    }

    pub fn is_limited(&self, u: u8) -> bool {
        self.limited[u as usize % MOST_COORDINATES]
    }

    /// The limit's code becomes the upper code of each coordinate that it bounds.
    pub fn set_limit(&mut self, limit: u32) {
        for u in 0..MOST_COORDINATES {
            if self.limited[u] {
                self.highs[u] = limit;
            }
        }
    }

    /// The coordinate has an upper code of its own, which no limit changes.
    pub fn fix_high(&mut self, u: u8, high: u32) {
        self.highs[u as usize % MOST_COORDINATES] = high;
        self.limited[u as usize % MOST_COORDINATES] = false;
    }

    pub fn first_count(&self, u: u8) -> u8 {
        self.first_count[u as usize % MOST_COORDINATES]
    }

    pub fn first_at(&self, u: u8, at: u8) -> u16 {
        self.firsts[place(u, at)]
    }

    pub fn second_count(&self, u: u8) -> u8 {
        self.second_count[u as usize % MOST_COORDINATES]
    }

    pub fn second_at(&self, u: u8, at: u8) -> u16 {
        self.seconds[place(u, at)]
    }

    pub fn rising_count(&self, u: u8) -> u8 {
        self.rising_count[u as usize % MOST_COORDINATES]
    }

    pub fn rising_at(&self, u: u8, at: u8) -> Rise {
        self.rising[rise_place(u, at)]
    }

    pub fn falling_count(&self, u: u8) -> u8 {
        self.falling_count[u as usize % MOST_COORDINATES]
    }

    pub fn falling_at(&self, u: u8, at: u8) -> Rise {
        self.falling[rise_place(u, at)]
    }

    // Adds an order, and gives its number.
    fn add_order(&mut self, first: u8, second: u8, weight: u32, group: u16) -> u16 {
        let number = self.order_count;
        self.orders[number as usize % MOST_ORDERS] = Order {
            weight,
            group,
            first,
            second,
        };
        let (u, v) = (
            first as usize % MOST_COORDINATES,
            second as usize % MOST_COORDINATES,
        );
        let at = self.first_count[u];
        self.firsts[place(first, at)] = number;
        self.first_count[u] = at.wrapping_add(1);
        let at = self.second_count[v];
        self.seconds[place(second, at)] = number;
        self.second_count[v] = at.wrapping_add(1);
        self.order_count = number.wrapping_add(1);
        number
    }

    /// Adds a group of four orders, given by their coordinates, all of one weight; gives their numbers.
    pub fn add_group(&mut self, orders: [(u8, u8); 4], weight: u32) -> [u16; 4] {
        let group = self.group_count;
        let mut numbers = [0; 4];
        for at in 0..4 {
            let (first, second) = orders[at];
            numbers[at] = self.add_order(first, second, weight, group);
        }
        self.groups[group as usize % MOST_GROUPS] = numbers;
        self.group_count = group.wrapping_add(1);
        numbers
    }

    /// The arrangement puts a coordinate at or before another.
    pub fn arrange(&mut self, rise: Rise) {
        let u = rise.first as usize % MOST_COORDINATES;
        let at = self.rising_count[u];
        self.rising[rise_place(rise.first, at)] = rise;
        self.rising_count[u] = at.wrapping_add(1);
        let v = rise.second as usize % MOST_COORDINATES;
        let at = self.falling_count[v];
        self.falling[rise_place(rise.second, at)] = rise;
        self.falling_count[v] = at.wrapping_add(1);
    }
}
