//! What a run of the program writes, as laws over the definitions: functions that do nothing, and whose contracts are proved.

ghost use Rattle.gix_commands.specs.Answerable.{StoredSucceeds};
ghost use Rattle.gix_commands.specs.Histories.{AheadSucceeds, BasesSucceeds, ContainingSucceeds, ContainsSucceeds, SimpleSucceeds, TopoSucceeds};
ghost use Rattle.gix_commands.specs.Listings.{FilesReportEntries, FilesReportNames, FilesSucceeds};

/// Where all that is reached are whole commits, `breadth`, `newest` and `oldest` fail for memory, reading or writing alone, whatever is
/// written of it.
pub fn simple_succeeds()
    ensures { SimpleSucceeds }
{}

/// Where all that is reached are whole commits, `topo` and `date` fail for memory, reading or writing alone, whatever is written of it.
pub fn topo_succeeds()
    ensures { TopoSucceeds }
{}

/// Where `files` reports a bad name, the tree that it names has an entry whose name is empty or holds `/`: it is the tree of the first such
/// entry, in the order of the lines.
pub fn files_report_names()
    ensures { FilesReportNames }
{}

/// Where `files` reports too many entries, no limit was asked for, and the tree and the trees in it have this many, more than 268,435,456.
pub fn files_report_entries()
    ensures { FilesReportEntries }
{}

/// Where each of these trees reads whole, none is under itself, no name is empty or holds `/`, and the entries aren't too many or a limit is
/// asked for, `files` fails for memory, reading or writing alone.
pub fn files_succeeds()
    ensures { FilesSucceeds }
{}

/// Where all that the two ids reach are whole commits, `ahead` fails for memory, reading or writing alone.
pub fn ahead_succeeds()
    ensures { AheadSucceeds }
{}

/// Where all that the ids reach are whole commits, `contains` fails for memory, reading or writing alone.
pub fn contains_succeeds()
    ensures { ContainsSucceeds }
{}

/// Where all that the ids reach are whole commits, `containing` fails for memory, reading or writing alone.
pub fn containing_succeeds()
    ensures { ContainingSucceeds }
{}

/// Where all that the ids reach are whole commits, `merge-base` fails for memory, reading or writing alone.
pub fn bases_succeeds()
    ensures { BasesSucceeds }
{}

/// Over what is stored and over rows each of which says what is stored at its id, every command fails for memory or writing alone, where what
/// it asks for is there as the laws above say, by an object or by a row. If lines have a format, what the tips reach has objects.
pub fn stored_succeeds()
    ensures { StoredSucceeds }
{}
