// Runs the judges over the cases of standard input: each end of each range of document 01 from inside and from outside.
#![tactic(auto)]

use decoder::{
    Frame, Params, Settings, Signal, SilkDecoderControl, SilkDecoderState, reshape, set_up_with,
};
use edition::NEWER;
use input::read_full;
use line::{Line, line_of};
use refusal::Refusal;
use std::{array, io};
use word::{bits32, low16};

// What is asked about a case, in the order of its numbers.
#[derive(Clone, Copy)]
enum Asked {
    Received,
    Lost,
    Core,
    PlcReceived,
    Glue,
    Cng,
    SetUp,
    Played,
    PlcLost,
}

impl From<i32> for Asked {
    fn from(number: i32) -> Asked {
        match number {
            0 => Asked::Received,
            1 => Asked::Lost,
            2 => Asked::Core,
            3 => Asked::PlcReceived,
            4 => Asked::Glue,
            6 => Asked::SetUp,
            7 => Asked::Played,
            8 => Asked::PlcLost,
            // 5, and any other number: a case names none, and a program that may fail would have to say how.
            _ => Asked::Cng,
        }
    }
}

// What the judges are asked about.
#[derive(Clone, Copy)]
struct Case {
    state: SilkDecoderState,
    control: SilkDecoderControl,
    params: Params,
    lines: [i16; 16],
    pulses: usize,
    output: usize,
    length: usize,
}

// A post of the newer edition that is never squelched, as the Rust is.
fn set_up(khz: i32, nb_subfr: i32) -> Result<SilkDecoderState, Refusal> {
    let settings = Settings {
        squelch: 0,
        edition: NEWER,
    };
    set_up_with(khz, nb_subfr, settings)
}

// A set-up state whose concealment and noise have run at its rate; of a shape that set-up refuses, one that has no shape.
fn held(khz: i32, nb_subfr: i32) -> Result<SilkDecoderState, Refusal> {
    let mut s = match set_up(khz, nb_subfr) {
        Ok(s) => s,
        Err(_) => {
            let mut s = set_up(16, 4)?;
            reshape(&mut s, 0, 0);
            s
        }
    };
    s.s_plc.fs_khz = khz;
    s.s_plc.pitch_l_q8 = khz.wrapping_mul(512);
    s.s_plc.prev_gain_q16[0] = 65536;
    s.s_plc.prev_gain_q16[1] = 65536;
    s.s_plc.nb_subfr = 2;
    s.s_plc.subfr_length = 20;
    s.s_cng.fs_khz = khz;
    Ok(s)
}

// A number as one of 8 bits; one that 8 bits don't hold counts as -1, which row 5 refuses. layout reads a frame's numbers by the same line,
// but rows judges without layout and the crates below it.
fn small(n: i32) -> i8 {
    i8::try_from(n).unwrap_or(-1)
}

impl Case {
    // A voiced frame that a state accepts.
    fn plain(state: SilkDecoderState) -> Case {
        Case {
            state,
            control: SilkDecoderControl {
                pitch_l: [100; 4],
                gains_q16: [81920; 4],
                ltp_coef_q14: [0; 20],
                ltp_scale_q14: 0,
            },
            params: Params {
                signal: Signal::Voiced,
                quant_offset_type: 0,
                nlsf_interp_coef_q2: 4,
                seed: 0,
            },
            lines: [0; 16],
            pulses: 320,
            output: 320,
            length: 320,
        }
    }

    // Changes the field of a number. An enum of the fields is no plainer: this is the one place that tells them apart.
    fn change(&mut self, field: i32, value: i32) {
        match field {
            0 => self.state.fs_khz = value,
            1 => self.state.nb_subfr = value,
            2 => self.state.frame_length = value,
            3 => self.state.subfr_length = value,
            4 => self.state.ltp_mem_length = value,
            5 => self.state.lpc_order = value,
            6 => self.state.loss_cnt = value,
            7 => self.state.lag_prev = value,
            8 => self.state.prev_signal_type = value,
            9 => self.state.prev_gain_q16 = value,
            10 => self.state.first_frame_after_reset = value,
            11 => self.state.prev_nlsf_q15[0] = low16(value),
            12 => self.state.prev_nlsf_q15[9] = low16(value),
            13 => self.state.prev_nlsf_q15[10] = low16(value),
            14 => self.state.prev_nlsf_q15[15] = low16(value),
            20 => self.state.s_plc.last_frame_lost = value,
            21 => self.state.s_plc.ltp_coef_q14[0] = low16(value),
            22 => self.state.s_plc.ltp_coef_q14[1] = low16(value),
            23 => self.state.s_plc.ltp_coef_q14[2] = low16(value),
            24 => self.state.s_plc.ltp_coef_q14[3] = low16(value),
            25 => self.state.s_plc.ltp_coef_q14[4] = low16(value),
            26 => self.state.s_plc.rand_scale_q14 = low16(value),
            27 => self.state.s_plc.prev_ltp_scale_q14 = low16(value),
            28 => self.state.s_plc.conc_energy = value,
            29 => self.state.s_plc.conc_energy_shift = value,
            30 => self.state.s_plc.pitch_l_q8 = value,
            31 => self.state.s_plc.prev_gain_q16[0] = value,
            32 => self.state.s_plc.prev_gain_q16[1] = value,
            33 => self.state.s_plc.fs_khz = value,
            34 => self.state.s_plc.nb_subfr = value,
            35 => self.state.s_plc.subfr_length = value,
            40 => self.state.s_cng.fs_khz = value,
            41 => self.state.s_cng.cng_smth_gain_q16 = value,
            42 => self.state.s_cng.cng_smth_nlsf_q15[0] = low16(value),
            43 => self.state.s_cng.cng_smth_nlsf_q15[9] = low16(value),
            44 => self.state.s_cng.cng_smth_nlsf_q15[10] = low16(value),
            45 => self.state.s_cng.cng_smth_nlsf_q15[15] = low16(value),
            46 => self.state.settings.squelch = value,
            47 => self.state.settings.edition = value,
            50 => self.control.ltp_scale_q14 = value,
            51 => self.control.gains_q16[0] = value,
            52 => self.control.gains_q16[1] = value,
            53 => self.control.gains_q16[2] = value,
            54 => self.control.gains_q16[3] = value,
            55 => self.control.pitch_l[0] = value,
            56 => self.control.pitch_l[1] = value,
            57 => self.control.pitch_l[2] = value,
            58 => self.control.pitch_l[3] = value,
            59 => self.control.ltp_coef_q14[0] = low16(value),
            60 => self.control.ltp_coef_q14[4] = low16(value),
            61 => self.control.ltp_coef_q14[15] = low16(value),
            62 => self.control.ltp_coef_q14[19] = low16(value),
            70 => self.params.signal = Signal::from(small(value)),
            71 => self.params.quant_offset_type = small(value),
            72 => self.params.nlsf_interp_coef_q2 = small(value),
            73 => self.lines[0] = low16(value),
            74 => self.lines[9] = low16(value),
            75 => self.lines[10] = low16(value),
            76 => self.lines[15] = low16(value),
            77 => self.pulses = bits32(value) as usize,
            78 => self.output = bits32(value) as usize,
            79 => self.length = bits32(value) as usize,
            80 => self.params.signal = Signal::Other(small(value)),
            // 99 changes nothing.
            _ => {}
        }
    }

    // A whole frame with the rate and the count of subframes that it brings.
    fn frame(&self, khz: i32, nb_subfr: i32, f: Frame) -> Result<(), Refusal> {
        judge::frame(
            &self.state,
            khz,
            nb_subfr,
            f,
            &self.control,
            &self.lines,
            self.pulses,
            self.output,
        )
    }

    // The answer is how many samples are played, and 0 where only a judge is asked.
    fn answer(&self, asked: Asked, khz: i32, nb_subfr: i32) -> Result<i32, Refusal> {
        match asked {
            Asked::Received => self.frame(khz, nb_subfr, Frame::Received(self.params))?,
            Asked::Lost => self.frame(khz, nb_subfr, Frame::Lost)?,
            Asked::Core => judge::core(
                &self.state,
                self.params,
                &self.control,
                self.pulses,
                self.output,
            )?,
            Asked::PlcReceived => judge::plc_received(&self.state, self.params, &self.control)?,
            Asked::PlcLost => judge::plc_lost(&self.state, self.output)?,
            Asked::Glue => judge::glue(&self.state, self.output, self.length)?,
            Asked::Cng => judge::cng(&self.state, &self.control, self.output, self.length)?,
            Asked::SetUp => {
                set_up_with(khz, nb_subfr, self.state.settings)?;
            }
            // No case is due -1.
            Asked::Played => return Ok(played(khz, nb_subfr, self.output).unwrap_or(-1)),
        }
        Ok(0)
    }
}

// How many samples of an output are in the part that is played, if it is the output's first ones.
fn played(khz: i32, nb_subfr: i32, lent: usize) -> Option<i32> {
    let places: [i16; 400] = array::from_fn(|n| n as i16);
    let output = places.get(..lent)?;
    let part = decoder::played(khz, nb_subfr, output);
    if !output.starts_with(part) {
        return None;
    }
    i32::try_from(part.len()).ok()
}

// A whole frame of one of ten numbers brings the last two, of another the shape that is held. Set-up and the played part hold no shape of the case.
fn answered(row: [i32; 64], count: usize) -> Result<i32, Refusal> {
    let asked = Asked::from(row[1]);
    let state = match asked {
        Asked::SetUp | Asked::Played => set_up(16, 4)?,
        _ => held(row[2], row[3])?,
    };
    let mut x = Case::plain(state);
    x.change(row[4], row[5]);
    x.change(row[6], row[7]);
    if count == 10 {
        return x.answer(asked, row[8], row[9]);
    }
    x.answer(asked, row[2], row[3])
}

// A case gives what is due: a number of samples or a refusal's number.
fn right(row: [i32; 64], count: usize) -> bool {
    match answered(row, count) {
        Ok(n) => n == row[0],
        Err(refusal) => i32::from(refusal.number()) == row[0],
    }
}

#[derive(Clone, Copy)]
struct Tally {
    lines: u64,
    passed: u64,
    failed: u64,
}

impl Tally {
    // A line that ends; one that holds neither eight numbers nor ten is no case.
    fn take(&mut self, rt: &impl Print, l: Line) -> io::Result<()> {
        self.lines = self.lines.saturating_add(1);
        if !matches!(l.count, 8 | 10) {
            return Ok(());
        }
        if right(l.row, l.count) {
            self.passed = self.passed.saturating_add(1);
            return Ok(());
        }
        self.failed = self.failed.saturating_add(1);
        let line = self.lines;
        println!(rt; "failed: line {line}")
    }
}

// At most 65,536 bytes are read, and what follows the last newline is no line.
fn main(rt: HostRuntime) -> io::Result<()> {
    let mut text = [0u8; 65536];
    let n = read_full(&mut rt.stdin(), &mut text)?;
    let mut t = Tally {
        lines: 0,
        passed: 0,
        failed: 0,
    };
    // load_cases has the same loop: a function of both would take a closure that prints and may fail, and spare three lines.
    for bytes in text[..n].split_inclusive(|b| *b == b'\n') {
        if bytes.ends_with(b"\n") {
            t.take(&rt, line_of(bytes))?;
        }
    }
    let passed = t.passed;
    let failed = t.failed;
    println!(rt; "{passed} passed, {failed} failed")
}
