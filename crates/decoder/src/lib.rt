// The decoder's state and frame description (decoder_structs.rs, define.rs), set-up, and the played part of the output.
// Inner: every function but set_up, set_up_with, played and same_shape.
#![tactic(auto)]

ghost use Rattle.std.specs.Prelude.{◌≡◌, cond, ◌<◌, ◌≤◌, ℤ, pos, length, map, take};
ghost use Rattle.word.specs.Int.{eq_ℤ};
ghost use Rattle.shape.specs.Shape.{rate_of, shape};
ghost use Rattle.decoder.specs.Signals.{signal_number, signal_of, is_type, is_voiced};
ghost use Rattle.decoder.specs.Ranges.{within, all_within, is_lag, lines_fit, decoder_fits, taps_held, subframes_held, plc_held, plc_fits, cng_fits};
ghost use Rattle.decoder.specs.Settings.{is_squelch, settings_fit, default_settings, squelched};
ghost use Rattle.decoder.specs.With.{with_shape};
ghost use Rattle.decoder.specs.Reshape.{reshaped};
ghost use Rattle.decoder.specs.Rows.{rate_row, size_row, history_row};
ghost use Rattle.decoder.specs.SetUp.{cng_default, plc_default, silk_default, state_from, set_up_refusal, set_up_with, set_up};
ghost use Rattle.decoder.specs.Played.{played_length};
ghost use Rattle.decoder.specs.Claims.{SameShape};

use edition::{NEWER, is_edition};
use refusal::{Refusal, refuse_if};
use shape::Rate;
use word::{Number, mul32, sum64, wide, wide16};

// Comfort noise's part of the state.
#[derive(Clone, Copy)]
pub struct SilkCNGState {
    pub cng_exc_buf_q14: [i32; 320],
    pub cng_smth_nlsf_q15: [i16; 16],
    pub cng_synth_state: [i32; 16],
    pub cng_smth_gain_q16: i32,
    pub rand_seed: i32,
    pub fs_khz: i32,
}

// Concealment's part of the state; its flag is a number, as those of the whole state.
#[derive(Clone, Copy)]
pub struct SilkPLCState {
    pub pitch_l_q8: i32,
    pub ltp_coef_q14: [i16; 5],
    pub prev_lpc_q12: [i16; 16],
    pub last_frame_lost: i32,
    pub rand_seed: i32,
    pub rand_scale_q14: i16,
    pub conc_energy: i32,
    pub conc_energy_shift: i32,
    pub prev_ltp_scale_q14: i16,
    pub prev_gain_q16: [i32; 2],
    pub fs_khz: i32,
    pub nb_subfr: i32,
    pub subfr_length: i32,
}

// What set-up names and no frame changes.
#[derive(Clone, Copy, Debug, PartialEq, Eq)]
pub struct Settings {
    pub squelch: i32,
    pub edition: i32,
}

// The kind and the flag are numbers, as a program lends them: row 3 refuses one out of range, which an enum or a bool could not hold.
#[derive(Clone, Copy)]
pub struct SilkDecoderState {
    pub prev_gain_q16: i32,
    pub exc_q14: [i32; 320],
    pub s_lpc_q14_buf: [i32; 16],
    pub out_buf: [i16; 480],
    pub lag_prev: i32,
    pub fs_khz: i32,
    pub nb_subfr: i32,
    pub frame_length: i32,
    pub subfr_length: i32,
    pub ltp_mem_length: i32,
    pub lpc_order: i32,
    pub prev_nlsf_q15: [i16; 16],
    pub first_frame_after_reset: i32,
    pub s_cng: SilkCNGState,
    pub loss_cnt: i32,
    pub prev_signal_type: i32,
    pub s_plc: SilkPLCState,
    pub settings: Settings,
}

// A frame's description: lags, gains, taps and LTP scale. Its two coefficient rows stand beside it.
#[derive(Clone, Copy)]
pub struct SilkDecoderControl {
    pub pitch_l: [i32; 4],
    pub gains_q16: [i32; 4],
    pub ltp_coef_q14: [i16; 20],
    pub ltp_scale_q14: i32,
}

// The signal type; what Other is, its number decides.
#[derive(Clone, Copy, Debug, PartialEq, Eq)]
pub enum Signal {
    NoVoiceActivity,
    Unvoiced,
    Voiced,
    Other(i8),
}

// The small numbers of a received frame.
#[derive(Clone, Copy, Debug, PartialEq, Eq)]
pub struct Params {
    pub signal: Signal,
    pub quant_offset_type: i8,
    pub nlsf_interp_coef_q2: i8,
    pub seed: i8,
}

// Document 01 names this form.
#[derive(Clone, Copy, Debug, PartialEq, Eq)]
pub enum Frame {
    Received(Params),
    Lost,
}

// The new state and the new description that a call gives.
#[derive(Clone, Copy)]
pub struct Answer {
    pub state: SilkDecoderState,
    pub control: SilkDecoderControl,
}

// An `if` in place would split decoder_fits into eight ways, each with an answer of its own.
fn chosen(c: bool, a: i32, b: i32) -> i32
    ensures { result ≡ cond c a b }
{
    if c { a } else { b }
}

// z is compared with a length: `==` in place would cast the length in each caller, with a proof that it fits.
pub fn equals(z: i32, n: usize) -> bool
    requires { n < 2147483648 }
    ensures { result ≡ eq_ℤ z (pos n) }
{
    z == n as i32
}

// Not `contains` of a range: the definitions cite `within`, and std's answer goes through `partial_cmp`.
#[tactic(auto, using(crate::proofs::Tests::words), unfolding(crate::specs::Ranges::within))]
pub fn within(low: i32, high: i32, z: i32) -> bool
    ensures { result ≡ within low high z }
{
    (low <= z) & (z <= high)
}

// The first n elements lie in low to high.
pub fn all_within<T: Number>(low: i32, high: i32, xs: &[T], n: usize) -> bool
    requires { n ≤ length xs.now }
    ensures { result ≡ all_within low high (map T.number xs.now) n }
{
    xs[..n].iter().all(|x| within(low, high, x.number()))
}

pub fn is_lag(khz: i32, z: i32) -> bool
    ensures { result ≡ is_lag (rate_of khz) z }
{
    within(Rate::lag_min(khz), Rate::lag_max(khz), z)
}

pub fn lines_fit(khz: i32, lines: &[i16; 16]) -> bool
    ensures { result ≡ lines_fit (rate_of khz) lines.now }
{
    all_within(0, 32767, lines, Rate::lpc_order(khz))
}

#[tactic(auto, using(word::proofs::Words::kept, crate::proofs::Tests::is_key), unfolding(crate::specs::Ranges::taps_held))]
fn taps_held(taps: &[i16; 5]) -> bool
    ensures { result ≡ taps_held taps.now }
{
    (taps[0] == 0)
        & (taps[1] == 0)
        & within(-11456, 15565, wide16(taps[2]))
        & (taps[3] == 0)
        & (taps[4] == 0)
}

#[tactic(auto, using(word::proofs::Words::kept, crate::proofs::Tests::is_key), unfolding(crate::specs::Ranges::subframes_held))]
fn subframes_held(khz: i32, n: i32, l: i32) -> bool
    ensures { result ≡ subframes_held (rate_of khz) n l }
{
    let few = (n == 2) & (l == 20);
    let counted = (n == 2) | (n == 4);
    few | (counted & equals(l, Rate::subfr_length(khz)))
}

// What concealment holds for its own rate.
fn plc_held(khz: i32, h: &SilkPLCState) -> bool
    ensures { result ≡ plc_held (rate_of khz) h.now }
{
    let low = mul32(256, Rate::lag_min(khz));
    let high = mul32(256, Rate::lag_max(khz));
    within(low, high, h.pitch_l_q8)
        & all_within(65536, 1686110208, &h.prev_gain_q16, 2)
        & subframes_held(khz, h.nb_subfr, h.subfr_length)
}

#[tactic(auto, using(crate::proofs::Tests::small))]
fn plc_fits(khz: i32, h: &SilkPLCState) -> bool
    ensures { result ≡ plc_fits (rate_of khz) h.now }
{
    within(0, 1, h.last_frame_lost)
        & taps_held(&h.ltp_coef_q14)
        & within(0, 27840, wide16(h.rand_scale_q14))
        & within(0, 16384, wide16(h.prev_ltp_scale_q14))
        & (0 <= h.conc_energy)
        & within(0, 31, h.conc_energy_shift)
        & (!equals(h.fs_khz, shape::rate_of(khz)) | plc_held(khz, h))
}

#[tactic(auto, using(crate::proofs::Tests::small))]
fn cng_fits(khz: i32, h: &SilkCNGState) -> bool
    ensures { result ≡ cng_fits (rate_of khz) h.now }
{
    let held = lines_fit(khz, &h.cng_smth_nlsf_q15) & within(0, 1686110208, h.cng_smth_gain_q16);
    !equals(h.fs_khz, shape::rate_of(khz)) | held
}

// The fields of the decoder's own, as a coming rate leaves them.
fn decoder_fits(s: &SilkDecoderState, khz: i32) -> bool
    ensures { (nb : ℤ) → result ≡ decoder_fits (rate_of khz) (reshaped khz nb s.now) }
{
    let kept = khz == s.fs_khz;
    let lag = chosen(kept, s.lag_prev, 100);
    let kind = chosen(kept, s.prev_signal_type, 0);
    let first = chosen(kept, s.first_frame_after_reset, 1);
    (0 <= s.loss_cnt)
        & (!(0 < s.loss_cnt) | is_lag(khz, lag))
        & within(0, 2, kind)
        & within(65536, 1686110208, s.prev_gain_q16)
        & within(0, 1, first)
        & lines_fit(khz, &s.prev_nlsf_q15)
}

#[tactic(auto, using(crate::proofs::Tests::words), unfolding(crate::specs::Settings::is_squelch))]
pub fn is_squelch(q: i32) -> bool
    ensures { result ≡ is_squelch q }
{
    within(0, 10000, q)
}

#[tactic(auto, using(crate::proofs::Tests::words), unfolding(crate::specs::Settings::settings_fit))]
fn settings_fit(v: Settings) -> bool
    ensures { result ≡ settings_fit v }
{
    is_squelch(v.squelch) & is_edition(v.edition)
}

// A loss now makes the count the squelch or more.
#[tactic(auto, using(crate::proofs::Tests::words), unfolding(crate::specs::Settings::squelched))]
pub fn squelched(s: &SilkDecoderState) -> bool
    ensures { result ≡ squelched s.now }
{
    let v = s.settings;
    (0 < v.squelch) & (wide(v.squelch) <= sum64(s.loss_cnt, 1))
}

// Row 1.
pub fn rate_row(s: &SilkDecoderState) -> bool
    ensures { result ≡ rate_row s.now }
{
    !shape::is_rate(s.fs_khz)
}

// Row 2.
#[tactic(auto, using(crate::proofs::Tests::words, crate::proofs::Tests::small_frame, crate::proofs::Tests::small_order), unfolding(crate::specs::Rows::size_row))]
pub fn size_row(s: &SilkDecoderState) -> bool
    ensures { result ≡ size_row s.now }
{
    let khz = s.fs_khz;
    let ok = shape::is_count(s.nb_subfr)
        & equals(s.frame_length, shape::frame_length(khz, s.nb_subfr))
        & equals(s.subfr_length, Rate::subfr_length(khz))
        & equals(s.ltp_mem_length, Rate::ltp_mem_length(khz))
        & equals(s.lpc_order, Rate::lpc_order(khz));
    !ok
}

// Row 3, on the state as a coming rate leaves it.
#[tactic(auto, using(crate::proofs::Tests::words), unfolding(crate::specs::Rows::history_row, crate::specs::Reshape::reshaped, crate::specs::Reshape::reshaped_by))]
pub fn history_row(s: &SilkDecoderState, khz: i32) -> bool
    ensures { (nb : ℤ) → result ≡ history_row (rate_of khz) (reshaped khz nb s.now) }
{
    let ok = decoder_fits(s, khz)
        & plc_fits(khz, &s.s_plc)
        & cng_fits(khz, &s.s_cng)
        & settings_fit(s.settings);
    !ok
}

impl From<Signal> for i8 {
    ghost from_gives = { λ s n. n ≡ signal_number s };

    fn from(s: Signal) -> i8 {
        match s {
            Signal::NoVoiceActivity => 0,
            Signal::Unvoiced => 1,
            Signal::Voiced => 2,
            Signal::Other(n) => n,
        }
    }
}

// The same number, in 32 bits.
impl From<Signal> for i32 {
    ghost from_gives = { λ s k. k ≡ signal_number s };

    fn from(s: Signal) -> i32 {
        i32::from(i8::from(s))
    }
}

// By document 01's match: 0, 1 and 2 are the three types.
impl From<i8> for Signal {
    ghost from_gives = { λ n s. s ≡ signal_of n };

    fn from(n: i8) -> Signal {
        match n {
            0 => Signal::NoVoiceActivity,
            1 => Signal::Unvoiced,
            2 => Signal::Voiced,
            _ => Signal::Other(n),
        }
    }
}

pub fn is_type(s: Signal) -> bool
    ensures { result ≡ is_type s }
{
    matches!(i8::from(s), 0..=2)
}

pub fn is_voiced(s: Signal) -> bool
    ensures { result ≡ is_voiced s }
{
    matches!(i8::from(s), 2)
}

#[tactic(auto, unfolding(crate::specs::SetUp::cng_default))]
fn cng_default() -> SilkCNGState
    ensures { result ≡ cng_default }
{
    SilkCNGState {
        cng_exc_buf_q14: [0; 320],
        cng_smth_nlsf_q15: [0; 16],
        cng_synth_state: [0; 16],
        cng_smth_gain_q16: 0,
        rand_seed: 0,
        fs_khz: 0,
    }
}

#[tactic(auto, unfolding(crate::specs::SetUp::plc_default))]
fn plc_default() -> SilkPLCState
    ensures { result ≡ plc_default }
{
    SilkPLCState {
        pitch_l_q8: 0,
        ltp_coef_q14: [0; 5],
        prev_lpc_q12: [0; 16],
        last_frame_lost: 0,
        rand_seed: 0,
        rand_scale_q14: 0,
        conc_energy: 0,
        conc_energy_shift: 0,
        prev_ltp_scale_q14: 0,
        prev_gain_q16: [0; 2],
        fs_khz: 0,
        nb_subfr: 0,
        subfr_length: 0,
    }
}

// An `as` in place would need the bound and the law in the caller for each of four sizes.
fn length_number(n: usize) -> i32
    requires { n < 2147483648 }
    ensures { result ≡ pos n }
{
    n as i32
}

// A rate, a count of subframes, and the lengths and the order that follow from them.
#[tactic(auto, using(crate::proofs::Tests::small_frame, crate::proofs::Tests::small_order))]
fn with_shape(s: &mut SilkDecoderState, khz: i32, nb_subfr: i32)
    ensures { s.new ≡ with_shape s.old khz nb_subfr }
{
    let frame_length = length_number(shape::frame_length(khz, nb_subfr));
    let subfr_length = length_number(Rate::subfr_length(khz));
    let ltp_mem_length = length_number(Rate::ltp_mem_length(khz));
    let lpc_order = length_number(Rate::lpc_order(khz));
    s.fs_khz = khz;
    s.nb_subfr = nb_subfr;
    s.frame_length = frame_length;
    s.subfr_length = subfr_length;
    s.ltp_mem_length = ltp_mem_length;
    s.lpc_order = lpc_order;
}

// The state becomes as a coming rate and count of subframes leave it.
pub fn reshape(s: &mut SilkDecoderState, khz: i32, nb_subfr: i32)
    ensures { s.new ≡ reshaped khz nb_subfr s.old }
{
    let held = s.fs_khz;
    with_shape(s, khz, nb_subfr);
    if khz == held {
        return;
    }
    s.s_lpc_q14_buf = [0; 16];
    s.out_buf = [0; 480];
    s.lag_prev = 100;
    s.first_frame_after_reset = 1;
    s.prev_signal_type = 0;
}

// A coming shape that is the one held changes nothing.
#[tactic(auto, using(crate::proofs::Coming::same_shape))]
pub fn same_shape()
    ensures { SameShape }
{}

#[tactic(auto, unfolding(crate::specs::SetUp::silk_default))]
fn silk_default() -> SilkDecoderState
    ensures { result ≡ silk_default }
{
    SilkDecoderState {
        prev_gain_q16: 65536,
        exc_q14: [0; 320],
        s_lpc_q14_buf: [0; 16],
        out_buf: [0; 480],
        lag_prev: 100,
        fs_khz: 0,
        nb_subfr: 0,
        frame_length: 0,
        subfr_length: 0,
        ltp_mem_length: 0,
        lpc_order: 0,
        prev_nlsf_q15: [0; 16],
        first_frame_after_reset: 1,
        s_cng: cng_default(),
        loss_cnt: 0,
        prev_signal_type: 0,
        s_plc: plc_default(),
        settings: default_settings(),
    }
}

// The default state at a rate and a count of subframes, with settings.
#[tactic(auto, using(crate::proofs::Tests::words), unfolding(crate::specs::SetUp::state_from))]
fn state_from(khz: i32, nb_subfr: i32, settings: Settings) -> SilkDecoderState
    ensures { result ≡ state_from khz nb_subfr settings }
{
    let mut t = silk_default();
    with_shape(&mut t, khz, nb_subfr);
    t.settings = settings;
    t
}

#[tactic(auto, unfolding(crate::specs::SetUp::set_up_refusal, refusal::specs::First::first_of))]
fn set_up_refusal(khz: i32, nb_subfr: i32, settings: Settings) -> Result<(), Refusal>
    ensures { result ≡ set_up_refusal khz nb_subfr settings }
{
    refuse_if(!shape::is_rate(khz), Refusal::Rate)?;
    refuse_if(!shape::is_count(nb_subfr), Refusal::Size)?;
    refuse_if(!is_squelch(settings.squelch), Refusal::Squelch)?;
    refuse_if(!is_edition(settings.edition), Refusal::Edition)
}

#[tactic(auto, unfolding(crate::specs::Settings::default_settings))]
pub fn default_settings() -> Settings
    ensures { result ≡ default_settings }
{
    Settings {
        squelch: 50,
        edition: NEWER,
    }
}

#[tactic(auto, using(refusal::proofs::Clear::answered_err, refusal::proofs::Clear::answered_ok), unfolding(crate::specs::SetUp::set_up_with))]
pub fn set_up_with(
    fs_khz: i32,
    nb_subfr: i32,
    settings: Settings,
) -> Result<SilkDecoderState, Refusal>
    ensures { result ≡ set_up_with fs_khz nb_subfr settings }
{
    set_up_refusal(fs_khz, nb_subfr, settings)?;
    Ok(state_from(fs_khz, nb_subfr, settings))
}

// Set-up with the default settings.
#[tactic(auto, using(crate::proofs::Tests::words), unfolding(crate::specs::SetUp::set_up))]
pub fn set_up(fs_khz: i32, nb_subfr: i32) -> Result<SilkDecoderState, Refusal>
    ensures { result ≡ set_up fs_khz nb_subfr }
{
    set_up_with(fs_khz, nb_subfr, default_settings())
}

// The played samples of the output themselves; empty for a shape that is none or a short output.
pub fn played(fs_khz: i32, nb_subfr: i32, output: &[i16]) -> &[i16]
    ensures { (result.now ≡ take (played_length (shape fs_khz nb_subfr) (length output.now)) output.now) × (result.ref_ptr ≡ output.entry.ref_ptr) }
{
    let n = shape::frame_length(fs_khz, nb_subfr);
    if n <= output.len() {
        return &output[0..n];
    }
    &output[0..0]
}
