//! The values of semaphores, eventflags and shared words.
ghost use Rattle.std.specs.Prelude.{◌≡◌, ◌<◌, ◌≤◌, length, get_or, slice_set, pos};
ghost use Rattle.fmp_base.specs.FlagCalls.{pattern_at, with_pattern};
ghost use Rattle.fmp_base.specs.SemaphoreCalls.{with_count};

use crate::kernel_state::KernelState;

impl KernelState {
    /// How many semaphores there are.
    pub fn semaphore_count(&self) -> usize
        ensures state { result ≡ length self.now.state.semaphores }
        ensures system { result ≡ length self.now.system.semaphores }
        ensures few { result ≤ 255 }
    {
        self.semaphores.len()
    }

    /// The count of a semaphore: the resources that are free.
    pub fn count(&self, s: u8) -> u16
        requires { s < length self.now.system.semaphores }
        ensures { result ≡ get_or self.now.state.semaphores s 0 }
    {
        self.semaphores[s as usize]
    }

    /// Changes the count of a semaphore.
    pub fn set_count(&mut self, s: u8, count: u16)
        requires { s < length self.old.system.semaphores }
        ensures { self.new ≡ record self.old { state = with_count self.old.state s count } }
    {
        self.semaphores[s as usize] = count;
    }

    /// How many eventflags there are.
    pub fn flag_count(&self) -> usize
        ensures state { result ≡ length self.now.state.flags }
        ensures system { result ≡ length self.now.system.flags }
        ensures few { result ≤ 255 }
    {
        self.flags.len()
    }

    /// The pattern of an eventflag.
    pub fn pattern(&self, f: u8) -> u16
        requires { f < length self.now.system.flags }
        ensures { result ≡ pattern_at self.now.state f }
    {
        self.flags[f as usize]
    }

    /// Changes the pattern of an eventflag.
    pub fn set_pattern(&mut self, f: u8, bits: u16)
        requires { f < length self.old.system.flags }
        ensures { self.new ≡ record self.old { state = with_pattern self.old.state f bits } }
    {
        self.flags[f as usize] = bits;
    }

    /// How many shared words there are.
    pub fn shared_word_count(&self) -> usize
        ensures state { result ≡ length self.now.state.shared_words }
        ensures system { result ≡ length self.now.system.shared_words }
        ensures few { result ≤ 255 }
    {
        self.shared_words.len()
    }

    /// A shared word.
    pub fn shared_word(&self, w: u8) -> i32
        requires { w < length self.now.system.shared_words }
        ensures { result ≡ get_or self.now.state.shared_words w (pos 0) }
    {
        self.shared_words[w as usize]
    }

    /// Changes a shared word.
    pub fn set_shared_word(&mut self, w: u8, value: i32)
        requires { w < length self.old.system.shared_words }
        ensures { self.new
            ≡ record self.old
            { state = record self.old.state { shared_words = slice_set self.old.state.shared_words w value } } }
    {
        self.shared_words[w as usize] = value;
    }
}
