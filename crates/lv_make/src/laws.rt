//! What a made script says, and what a summary shows.
ghost use Rattle.lv_make.specs.MadeProgram.{MadeScriptsAreRead, SalesAreInOrder};
ghost use Rattle.lv_make.specs.ShownFaults.{FaultNumbersAreShown};

/// A script that is made for 1 to 65,536 sales has no fault. It says a program of three sessions, of which the first
/// loads the sales, the second changes sales and items, and the third reads both views.
pub fn made_scripts_are_read()
    ensures { MadeScriptsAreRead }
{}

/// The INSERTs of a made script have, one after another, just the sales that it is made for.
pub fn sales_are_in_order()
    ensures { SalesAreInOrder }
{}

/// The number of a fault in a summary is the one with which its text begins in a transcript.
pub fn fault_numbers_are_shown()
    ensures { FaultNumbersAreShown }
{}
