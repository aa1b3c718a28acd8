//! How structures are written.
ghost use Rattle.luo_struct.specs.Facts.{StructuresAreWritten};

/// The texts of some structures, asymmetric ones, with labels and without.
pub fn structures_are_written()
    ensures { StructuresAreWritten }
{}
