// Rates, counts of subframes, and the lengths that follow from them.
// Inner: every function.
#![tactic(auto)]

ghost use Rattle.std.specs.Prelude.{◌≡◌, ◌*◌, ◌⊎◌, true, pos};
ghost use Rattle.shape.specs.Shape.{shape, frame_length, order_of, is_rate, is_count, rate_of, count_of};
ghost use Rattle.shape.specs.Order.{size, order};

// Document 01 names this form: constants and functions of a Rate type, no self. A number that is no rate has 0, which an enum of the rates could not answer.
#[derive(Clone, Copy)]
pub struct Rate;

#[tactic(auto, using(crate::proofs::Shapes::rate_8, crate::proofs::Shapes::rate_12, crate::proofs::Shapes::rate_16, crate::proofs::Shapes::rate_none), unfolding(crate::specs::Shape::order_of))]
impl Rate {
    pub const SUBFR_LENGTH_8: usize = 40;

    pub const SUBFR_LENGTH_12: usize = 60;

    pub const SUBFR_LENGTH_16: usize = 80;

    pub const LTP_MEM_LENGTH_8: usize = 160;

    pub const LTP_MEM_LENGTH_12: usize = 240;

    pub const LTP_MEM_LENGTH_16: usize = 320;

    pub const LAG_MIN_8: i32 = 16;

    pub const LAG_MIN_12: i32 = 24;

    pub const LAG_MIN_16: i32 = 32;

    pub const LAG_MAX_8: i32 = 144;

    pub const LAG_MAX_12: i32 = 216;

    pub const LAG_MAX_16: i32 = 288;

    pub const LPC_ORDER_8: usize = 10;

    pub const LPC_ORDER_12: usize = 10;

    pub const LPC_ORDER_16: usize = 16;

    // The samples of a subframe, 0 for a number that is no rate; and so in each function below.
    pub fn subfr_length(khz: i32) -> usize
        ensures { result ≡ 5 * rate_of khz }
    {
        match khz {
            8 => Rate::SUBFR_LENGTH_8,
            12 => Rate::SUBFR_LENGTH_12,
            16 => Rate::SUBFR_LENGTH_16,
            _ => 0,
        }
    }

    pub fn ltp_mem_length(khz: i32) -> usize
        ensures { result ≡ 20 * rate_of khz }
    {
        match khz {
            8 => Rate::LTP_MEM_LENGTH_8,
            12 => Rate::LTP_MEM_LENGTH_12,
            16 => Rate::LTP_MEM_LENGTH_16,
            _ => 0,
        }
    }

    pub fn lag_min(khz: i32) -> i32
        ensures { result ≡ pos (2 * rate_of khz) }
    {
        match khz {
            8 => Rate::LAG_MIN_8,
            12 => Rate::LAG_MIN_12,
            16 => Rate::LAG_MIN_16,
            _ => 0,
        }
    }

    pub fn lag_max(khz: i32) -> i32
        ensures { result ≡ pos (18 * rate_of khz) }
    {
        match khz {
            8 => Rate::LAG_MAX_8,
            12 => Rate::LAG_MAX_12,
            16 => Rate::LAG_MAX_16,
            _ => 0,
        }
    }

    pub fn lpc_order(khz: i32) -> usize
        ensures { result ≡ order_of (rate_of khz) }
    {
        match khz {
            8 => Rate::LPC_ORDER_8,
            12 => Rate::LPC_ORDER_12,
            16 => Rate::LPC_ORDER_16,
            _ => 0,
        }
    }
}

// The order of a short-term filter. Not From and TryFrom: an order has more numbers than its size, and TryFrom would need an error type that nobody reads.
#[derive(Clone, Copy, Debug, PartialEq, Eq)]
pub enum Order {
    Ten = 10,
    Sixteen = 16,
}

impl Order {
    pub fn size(self) -> usize
        ensures { result ≡ size self }
    {
        self as usize
    }

    // For callers whose number is an order: from `of` they would unwrap an Option and prove that it is Some, which this `requires` says.
    pub fn from_size(d: usize) -> Order
        requires { (d ≡ 10) ⊎ (d ≡ 16) }
        ensures { size result ≡ d }
    {
        if d == 16 { Order::Sixteen } else { Order::Ten }
    }

    // The order that a number is.
    pub fn of(d: usize) -> Option<Order>
        ensures { result ≡ order d }
    {
        match d {
            10 => Some(Order::Ten),
            16 => Some(Order::Sixteen),
            _ => None,
        }
    }
}

// A rate and a count of subframes that rows 1 and 2 let pass.
#[derive(Clone, Copy)]
pub struct FrameShape {
    pub fs_khz: i32,
    pub nb_subfr: i32,
    ghost rate: { is_rate fs_khz ≡ true },
    ghost count: { is_count nb_subfr ≡ true },
}

impl FrameShape {
    #[tactic(auto, using(crate::proofs::Shapes::rate_back, crate::proofs::Shapes::order_two, crate::proofs::Shapes::rates))]
    pub fn order(self) -> Order
        ensures { size result ≡ order_of (rate_of self.fs_khz) }
    {
        Order::from_size(Rate::lpc_order(self.fs_khz))
    }
}

// The rate as a length, 0 for a number that is none.
#[tactic(auto, using(crate::proofs::Shapes::rate_casts), unfolding(crate::specs::Shape::rate_of))]
pub fn rate_of(khz: i32) -> usize
    ensures { result ≡ rate_of khz }
{
    if is_rate(khz) { khz as usize } else { 0 }
}

// The count of subframes as a length, 0 for a number that is none.
#[tactic(auto, using(crate::proofs::Shapes::count_casts), unfolding(crate::specs::Shape::count_of))]
pub fn count_of(nb_subfr: i32) -> usize
    ensures { result ≡ count_of nb_subfr }
{
    if is_count(nb_subfr) {
        nb_subfr as usize
    } else {
        0
    }
}

#[tactic(auto, using(crate::proofs::Shapes::no_rate, word::proofs::Order::key), unfolding(crate::specs::Shape::is_rate))]
pub fn is_rate(khz: i32) -> bool
    ensures { result ≡ is_rate khz }
{
    matches!(khz, 8 | 12 | 16)
}

#[tactic(auto, using(crate::proofs::Shapes::no_count, word::proofs::Order::key), unfolding(crate::specs::Shape::is_count))]
pub fn is_count(nb_subfr: i32) -> bool
    ensures { result ≡ is_count nb_subfr }
{
    matches!(nb_subfr, 2 | 4)
}

// The samples of a frame, 0 for a shape that is none.
#[tactic(auto, using(crate::proofs::Shapes::frame_le))]
pub fn frame_length(khz: i32, nb_subfr: i32) -> usize
    ensures { result ≡ frame_length (shape khz nb_subfr) }
{
    Rate::subfr_length(khz) * count_of(nb_subfr)
}
