ghost use Rattle.journal.specs.Alone.{AsIfAlone, KeptApart};
ghost use Rattle.journal.specs.EntryBytes.{SizesAreLengths};
ghost use Rattle.journal.specs.VersionLaws.{VersionsKeepTheirValues};

/// A version's value stays as the journal grows, and the version that now stands has the value that
/// now stands.
pub fn versions_keep_their_values()
    ensures { VersionsKeepTheirValues }
{}

/// On two states of the tables that agree on what a tenant may read, each of its calls has the same
/// reply, the same writes and the same reads; and its writes lie in tables that it may write.
pub fn tenants_are_kept_apart()
    ensures { KeptApart }
{}

/// A legal journal is as if each call had run alone, one after another: with every reply that the
/// journal has, and with the tables of the journal at the end.
pub fn calls_are_as_if_alone()
    ensures { AsIfAlone }
{}

/// The size of every entry is the number of its bytes.
pub fn sizes_are_lengths()
    ensures { SizesAreLengths }
{}
