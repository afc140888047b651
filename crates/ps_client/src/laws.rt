//! The laws of a client. Each is the contract of a function that does nothing.

ghost use Rattle.ps_client.specs.Laws.{LastIsTold, OthersAreTold, NoneDiffers, EachDiffers, KeepsOrder, ImagesStay, RowsAreOne};

/// A law: a stream's table is a map by name. Of several entries of one bucket the last counts, and what is told of other buckets than
/// those that are removed stays.
pub fn tables_are_maps()
    ensures last { LastIsTold }
    ensures others { OthersAreTold }
{}

/// A law: where each bucket that is told has the total that is told, no bucket is refused; and what is refused differs.
pub fn only_differing_buckets_are_refused()
    ensures none { NoneDiffers }
    ensures each { EachDiffers }
{}

/// A law: the entries of a stream stay in the order of their names, and buckets are refused in that order.
pub fn buckets_are_refused_by_name()
    ensures { KeepsOrder }
{}

/// A law: what a line does to the buckets that are kept, it does to the lists of operations of which they are the images.
pub fn buckets_stay_the_images_of_lists()
    ensures { ImagesStay }
{}

/// A law: the rows that are shown once a checkpoint was applied are determined by what is held then.
pub fn shown_rows_are_determined()
    ensures { RowsAreOne }
{}
