// Files in memory, whose loads fail where a test asks for it.
ghost use Rattle.std.specs.Prelude.{◌≡◌, ◌≢◌, ℕ, List, [], ◌∷◌, ◌++◌, None, Some, OnOk, OnErr, MatchOption};
ghost use Rattle.std.specs.Option.{option_map};
ghost use Rattle.std.specs.BTreeMap.{get_by_text};

use crate::{Files, LoadFault};
use std::alloc::{AllocError, Global};
use std::collections::BTreeMap;

/// Files in memory. It tells what it holds. Each load has a number, from 1.
#[derive(Drop)]
pub struct MemFiles {
    alloc: Global,
    entries: BTreeMap<String, Vec<u8>>,
    failing: Vec<u64>,
    made: u64,
    faults: u64,
    taken: u64,
}

impl MemFiles {
    ghost use Rattle.xt_io.specs.MemFiles.{files_held, loads_of, no_loads, next_load, fails_next_load};

    /// No files, and no load that is to fail.
    pub fn new(alloc: Global) -> MemFiles
        ensures held { (name : List ℕ) → files_held result name ≡ None }
        ensures loads { loads_of result ≡ no_loads }
    {
        MemFiles {
            alloc,
            entries: BTreeMap::new(alloc),
            failing: Vec::new(alloc),
            made: 0,
            faults: 0,
            taken: 0,
        }
    }

    /// Holds these bytes under the name, in place of what was there.
    pub fn add(&mut self, name: &str, bytes: &[u8]) -> Result<(), AllocError>
        ensures added { OnOk result (files_held self.new name.now ≡ Some bytes.now) }
        ensures others { (q : List ℕ) → q ≢ name.now → files_held self.new q ≡ files_held self.old q }
        ensures err { OnErr result ((q : List ℕ) → files_held self.new q ≡ files_held self.old q) }
        ensures loads { loads_of self.new ≡ loads_of self.old }
    {
        let key = String::from_str(self.alloc, name)?;
        let value = bytes.to_vec(self.alloc)?;
        self.entries.insert(key, value)?;
        Ok(())
    }

    /// The load with this number is to fail.
    pub fn fail_at(&mut self, call: u64) -> Result<(), AllocError>
        ensures ok { OnOk result (loads_of self.new
            ≡ record (loads_of self.old) { failing = (loads_of self.old).failing ++ call ∷ [] }) }
        ensures err { OnErr result (loads_of self.new ≡ loads_of self.old) }
        ensures held { (q : List ℕ) → files_held self.new q ≡ files_held self.old q }
    {
        self.failing.push(call)?;
        Ok(())
    }

    // Counts the next load, and says whether it is to fail.
    fn begin_load(&mut self) -> bool
        ensures listed { result ≡ fails_next_load (loads_of self.old) }
        ensures counted { self.new ≡ record self.old { made = next_load (loads_of self.old) } }
    {
        self.made = self.made.saturating_add(1);
        self.failing.contains(&self.made)
    }
}

// The bytes under the name.
fn look_up<'a>(entries: &'a BTreeMap<String, Vec<u8>>, name: &str) -> Option<&'a [u8]>
    ensures { MatchOption result
        (option_map (λ bytes. bytes.items) (get_by_text entries.now name.now) ≡ None)
        (λ found. option_map (λ bytes. bytes.items) (get_by_text entries.now name.now) ≡ Some found.now) }
{
    match entries.get(name) {
        Some(bytes) => Some(bytes.as_slice()),
        None => None,
    }
}

impl Files for MemFiles {
    ghost use Rattle.std.specs.Prelude.{◌≤◌, ◌<◌, ◌+◌, ◌⊎◌, true, false, IsOk, IfOk, IfErr, length, vec_len, alloc_error};
    ghost use Rattle.xt_io.specs.Files.{IsHeld, HasLoadCause, KeepsFiles, Rose};
    ghost use Rattle.xt_io.specs.MemFiles.{files_held, loads_of, files_state, next_load, fails_next_load};

    ghost state = { files_state };

    fn load(&mut self, alloc: Global, name: &str, limit: u64) -> Result<Vec<u8>, LoadFault>
        ensures held { IfOk result (λ bytes. IsHeld (files_state self.old).held name.now bytes.items) }
        ensures within { IfOk result (λ bytes. vec_len bytes ≤ limit) }
        ensures refused { IfErr result (HasLoadCause (files_state self.old) (files_state self.new) name.now limit) }
        ensures keeps { KeepsFiles (files_state self.old) (files_state self.new) }
        ensures takes { (files_state self.new).taken ≤ (files_state self.old).taken + (limit + 1) }

        // It counts itself.
        ensures made { (loads_of self.new).made ≡ next_load (loads_of self.old) }
        ensures failing { (loads_of self.new).failing ≡ (loads_of self.old).failing }

        // A listed load fails, and raises the count of failures.
        ensures listed { fails_next_load (loads_of self.old) ≡ true → result ≡ Err LoadFault.Failed }
        ensures listed_rises { fails_next_load (loads_of self.old) ≡ true
            → Rose (loads_of self.old).faults (loads_of self.new).faults }

        // Any other raises nothing: it fails where the name is not held, is too long by one byte, or gives the bytes.
        ensures other { fails_next_load (loads_of self.old) ≡ false → (loads_of self.new).faults ≡ (loads_of self.old).faults }
        ensures missing { fails_next_load (loads_of self.old) ≡ false → files_held self.old name.now ≡ None
            → result ≡ Err LoadFault.Failed }
        ensures missing_takes { files_held self.old name.now ≡ None → (loads_of self.new).taken ≡ (loads_of self.old).taken }
        ensures long { (bytes : List ℕ) → fails_next_load (loads_of self.old) ≡ false
            → files_held self.old name.now ≡ Some bytes → limit < length bytes
            → result ≡ Err (LoadFault.TooLong (limit + 1)) }
        ensures serves { (bytes : List ℕ) → fails_next_load (loads_of self.old) ≡ false
            → files_held self.old name.now ≡ Some bytes → length bytes ≤ limit
            → IsOk result ⊎ (result ≡ Err (LoadFault.Memory alloc_error)) }
    {
        if self.begin_load() {
            self.faults = self.faults.saturating_add(1);
            return Err(LoadFault::Failed);
        }
        let Some(bytes) = look_up(&self.entries, name) else {
            return Err(LoadFault::Failed);
        };
        if bytes.len() as u64 > limit {
            // As from a disk, one byte more than the limit is read.
            let read = limit + 1;
            self.taken = self.taken.saturating_add(read);
            return Err(LoadFault::TooLong(read));
        }
        self.taken = self.taken.saturating_add(bytes.len() as u64);
        Ok(bytes.to_vec(alloc)?)
    }
}

#[cfg(test)]
mod tests {
    use super::*;
    use std::test::Fail;

    // What a load is to answer: so many bytes, none for a failure, or one too many.
    #[derive(Clone, Copy, PartialEq, Debug)]
    enum Want {
        Bytes(usize),
        Failed,
        TooLong(u64),
        Memory,
    }

    fn answer(outcome: Result<Vec<u8>, LoadFault>) -> Want {
        match outcome {
            Ok(bytes) => Want::Bytes(bytes.len()),
            Err(LoadFault::Failed) => Want::Failed,
            Err(LoadFault::TooLong(n)) => Want::TooLong(n),
            Err(LoadFault::Memory(_)) => Want::Memory,
        }
    }

    const LOADS: [(&str, u64, Want); 5] = [
        ("five", 5, Want::Bytes(5)),
        ("five", 4, Want::TooLong(5)),
        ("none", 5, Want::Failed),
        ("five", 5, Want::Failed),
        ("five", 5, Want::Bytes(5)),
    ];

    #[test]
    fn loads_in_a_row(rt: HostRuntime) -> Result<(), Fail> {
        let alloc = rt.alloc();
        let mut files = MemFiles::new(alloc);
        files.add("five", b"1")?;
        files.add("five", b"12345")?;
        files.fail_at(4)?;
        for (name, limit, want) in LOADS {
            let outcome = files.load(alloc, name, limit);
            assert_eq!(rt; answer(outcome), want);
        }
        assert_eq!(rt; files.faults, 1);
        assert_eq!(rt; files.taken, 15);
        Ok(())
    }
}
