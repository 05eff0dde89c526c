//! A law, the contract of a function that does nothing.
ghost use Rattle.std.specs.Prelude.{◌≤◌, ◌+◌, ◌-◌, ◌^◌, ℕ, List, Option, min};
ghost use Rattle.file_reading.specs.FileRead.{FileRead, AreFiles, unopened};

use stats_io::Shelf;

/// One fault of a shelf is no cause for two files: between the states before and after files that were read in order,
/// its count rose at least once for each file that could not be opened.
pub fn each_unopened_file_has_its_fault<F: Shelf>()
    ensures { (holds : List ℕ → Option (List ℕ)) (names : List (List ℕ)) (before after : F) (files : List FileRead)
        → AreFiles F.state F.S.state holds names before after files
        → min ((F.state before).faults + unopened files) (2 ^ 64 - 1) ≤ (F.state after).faults }
{}
