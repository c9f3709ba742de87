//! The law by which a task of a class is one of any problem: the call does nothing, and its
//! contract is the law.
ghost use Rattle.tf_posed.specs.Agreement.{PosedLaw};

/// Of a task of any class the same timetables fit as of its problem, and the same are best.
pub fn posed_law()
    ensures { PosedLaw }
{}
