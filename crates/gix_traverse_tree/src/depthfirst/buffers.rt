//! The state of `depthfirst`: buffers for trees' contents, taken and given back for later use.

ghost use Rattle.std.specs.Prelude.{◌≡◌, ◌<◌, ◌++◌, ◌∷◌, [], IfOk, IsOk};
ghost use Rattle.gix_traverse_tree.specs.Opened.{IsGivenBack, IsTakenFrom};

use crate::depthfirst::State;
use std::alloc::{AllocError, Global};

impl State {
    /// A state for a first walk. It takes no memory.
    pub fn new(alloc: Global) -> State
        ensures { result.buffers.items ≡ [] }
    {
        State {
            buffers: Vec::new(alloc),
        }
    }

    /// A state for a first walk, which serves as well as a copy. It takes no memory, so it never
    /// fails.
    pub fn try_clone(&self) -> Result<State, AllocError>
        ensures buffers { IfOk result (λ state. state.buffers.items ≡ []) }
        ensures whole { IsOk result }
    {
        Ok(State::new(*self.buffers.allocator()))
    }

    /// An empty buffer, one of those given to `push_buf` if there is one.
    pub fn pop_buf(&mut self) -> Vec<u8>
        ensures empty { result.items ≡ [] }
        ensures taken { IsTakenFrom self.old.buffers.items self.new.buffers.items }
    {
        match self.buffers.pop() {
            Some(mut buffer) => {
                buffer.clear();
                buffer
            }
            None => Vec::new(*self.buffers.allocator()),
        }
    }

    /// Takes a buffer back for later use. If no memory is left, it is dropped.
    pub fn push_buf(&mut self, buffer: Vec<u8>)
        ensures given { IsGivenBack buffer self.old.buffers.items self.new.buffers.items }
        ensures kept { self.old.buffers.len < self.old.buffers.cap
            → self.new.buffers.items ≡ self.old.buffers.items ++ buffer ∷ [] }
    {
        let _ = self.buffers.push(buffer);
    }
}
