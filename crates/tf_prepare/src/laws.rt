//! The law by which a class and its problem have the same task: the call does nothing, and its
//! contract is the law.
ghost use Rattle.tf_prepare.specs.Alike.{AlikeLaw};

/// Whatever makes a task of a class makes the same task of its problem.
pub fn alike_law()
    ensures { AlikeLaw }
{}
