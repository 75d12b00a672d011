// Laws of the rows, for the crates above. They are proved from the definitions alone.
ghost use Rattle.holder_table.specs.HolderLaws.{HolderLaws};

/// What is held after a change, that changes keep the order of the names, that look-ups tell ascending rows apart, and
/// that what holds of some row holds of one that is found.
pub fn holder_laws<V: Copy>()
    ensures { HolderLaws V }
{}
