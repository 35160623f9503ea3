//! What the rules of a snapshot say, in words.

/// The rule of this number for snapshots of a shelf atlas, in words.
pub fn shelf_rule(number: u32) -> &'static str {
    match number {
        1 =>
            "frame: sides, area, alignments and the shelf width are within their limits, and columns fit",
        2 => "counts: there are 1 to 65535 shelf records, and as many item records",
        3 =>
            "link: no link leads past the records, prev names the one before, items name their shelf",
        4 => "shelves: they stand column after column, one behind the other, and fill each column",
        5 => "runs: the items of a shelf lie side by side, aligned, and fill it; is_empty is right",
        6 => "neighbours: no two free items or empty shelves touch",
        7 => "free list: it has each free item of its shelf once, and links back",
        8 => "sharing: each record is in one list, once, or unused, and every list ends",
        9 => "unused: no unused item is marked allocated",
        _ => "space: allocated_space is the area of all that is allocated",
    }
}

/// The rule of this number for snapshots of a bucketed atlas, in words.
pub fn bucket_rule(number: u32) -> &'static str {
    match number {
        1 => "frame: sides, area, alignments and columns are within their limits, and columns fit",
        2 => "counts: there are at most 4095 shelf records, and as many bucket records",
        3 => "link: no link leads past the records, and buckets name their shelf",
        4 => "shelves: they stand column after column, one behind the other, no taller than it",
        5 => "buckets: those of a shelf lie apart, aligned, within it, and count what they gave",
        6 => "neighbours: the last shelf has something live",
        8 => "sharing: each record is in one list, once, or unused, and every list ends",
        9 => "unused: no unused bucket has anything live",
        _ => "space: allocated_space is the area that buckets have used",
    }
}
