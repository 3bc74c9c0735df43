// The slices in which a state lies.
// Inner: every function.
ghost use Rattle.std.specs.Prelude.{◌≡◌, ◌≤◌, length};
ghost use Rattle.layout.specs.Layout.{WORDS, HALVES, cng_in, plc_in, settings_in, state_in, with_words, with_halves};

use crate::{part, put_halves, put_words};
use decoder::{Settings, SilkCNGState, SilkDecoderState, SilkPLCState};

// A state's words and halves, to be read.
#[derive(Clone, Copy)]
pub struct StateNumbers<'a> {
    pub words: &'a [i32],
    pub halves: &'a [i16],
    pub ghost words_long: { WORDS ≤ length words.now },
    pub ghost halves_long: { HALVES ≤ length halves.now },
}

impl StateNumbers<'_> {
    #[tactic(auto, unfolding(crate::specs::Layout::cng_in))]
    fn cng(self) -> SilkCNGState
        ensures { result ≡ cng_in self.entry.words.now self.entry.halves.now }
    {
        let cng_exc_buf_q14 = part(self.words, 357);
        let cng_smth_nlsf_q15 = part(self.halves, 519);
        let cng_synth_state = part(self.words, 677);
        SilkCNGState {
            cng_exc_buf_q14,
            cng_smth_nlsf_q15,
            cng_synth_state,
            cng_smth_gain_q16: self.words[693],
            rand_seed: self.words[694],
            fs_khz: self.words[695],
        }
    }

    #[tactic(auto, unfolding(crate::specs::Layout::plc_in))]
    fn plc(self) -> SilkPLCState
        ensures { result ≡ plc_in self.entry.words.now self.entry.halves.now }
    {
        let ltp_coef_q14 = part(self.halves, 496);
        let prev_lpc_q12 = part(self.halves, 501);
        let prev_gain_q16 = part(self.words, 352);
        SilkPLCState {
            pitch_l_q8: self.words[347],
            ltp_coef_q14,
            prev_lpc_q12,
            last_frame_lost: self.words[348],
            rand_seed: self.words[349],
            rand_scale_q14: self.halves[517],
            conc_energy: self.words[350],
            conc_energy_shift: self.words[351],
            prev_ltp_scale_q14: self.halves[518],
            prev_gain_q16,
            fs_khz: self.words[354],
            nb_subfr: self.words[355],
            subfr_length: self.words[356],
        }
    }

    #[tactic(auto, unfolding(crate::specs::Layout::settings_in))]
    fn settings(self) -> Settings
        ensures { result ≡ settings_in self.entry.words.now }
    {
        Settings {
            squelch: self.words[696],
            edition: self.words[697],
        }
    }

    // The state that they hold.
    #[tactic(auto, unfolding(crate::specs::Layout::state_in))]
    pub fn state(self) -> SilkDecoderState
        ensures { result ≡ state_in self.entry.words.now self.entry.halves.now }
    {
        let exc_q14 = part(self.words, 1);
        let s_lpc_q14_buf = part(self.words, 321);
        let out_buf = part(self.halves, 0);
        let prev_nlsf_q15 = part(self.halves, 480);
        let s_cng = self.cng();
        let s_plc = self.plc();
        let settings = self.settings();
        SilkDecoderState {
            prev_gain_q16: self.words[0],
            exc_q14,
            s_lpc_q14_buf,
            out_buf,
            lag_prev: self.words[337],
            fs_khz: self.words[338],
            nb_subfr: self.words[339],
            frame_length: self.words[340],
            subfr_length: self.words[341],
            ltp_mem_length: self.words[342],
            lpc_order: self.words[343],
            prev_nlsf_q15,
            first_frame_after_reset: self.words[344],
            s_cng,
            loss_cnt: self.words[345],
            prev_signal_type: self.words[346],
            s_plc,
            settings,
        }
    }
}

// A state's words and halves, to be read and written.
#[derive(Drop)]
pub struct StateSlices<'a> {
    pub words: &'a mut [i32],
    pub halves: &'a mut [i16],
    pub ghost words_long: { WORDS ≤ length words.now },
    pub ghost halves_long: { HALVES ≤ length halves.now },
}

impl StateSlices<'_> {
    ghost use Rattle.layout.specs.Lent.{SameState};

    pub fn numbers(&self) -> StateNumbers<'_>
        ensures { (result.words.now ≡ self.now.words.now) × (result.halves.now ≡ self.now.halves.now) }
    {
        StateNumbers {
            words: self.words,
            halves: self.halves,
        }
    }

    // The state that they hold.
    pub fn state(&self) -> SilkDecoderState
        ensures { result ≡ state_in self.now.words.now self.now.halves.now }
    {
        self.numbers().state()
    }

    // A state stored.
    #[inline(always)]
    pub fn put(&mut self, s: &SilkDecoderState)
        ensures stored { (self.new.words.now ≡ with_words self.old.words.now s.now) × (self.new.halves.now ≡ with_halves self.old.halves.now s.now) }
        ensures same_reference { SameState self.old self.new }
    {
        put_words(s, self.words);
        put_halves(s, self.halves);
    }
}
