//! The laws of the statuses of `sync`. Each is the contract of a function that does nothing.

ghost use Rattle.ps_syncing.specs.Laws.{DoneAtZero, NoWordsAtOne, LineAtThree, TokenAtFour, LimitAtFive, UnreadAtSix, UnwrittenAtSeven, LostAtTen, UnansweredAtEleven, StatusAtTwelve, AlteredAtThirteen};
ghost use Rattle.ps_syncing.specs.Laws.{OneForOtherWords, ThreeForALine, FourForNoToken, FiveForALength, FiveForALongLine, ZeroForNoCause};

/// A law: wherever `sync` ends with a status, that status's cause holds. With status 8 it was out of memory, which needs no cause.
pub fn statuses_have_their_causes()
    ensures done { DoneAtZero }
    ensures words { NoWordsAtOne }
    ensures line { LineAtThree }
    ensures token { TokenAtFour }
    ensures limit { LimitAtFive }
    ensures unread { UnreadAtSix }
    ensures unwritten { UnwrittenAtSeven }
    ensures lost { LostAtTen }
    ensures unanswered { UnansweredAtEleven }
    ensures status { StatusAtTwelve }
    ensures altered { AlteredAtThirteen }
{}

/// A law: where the words are none of `sync`, or a file that tells what it holds is refused, `sync` ends with that refusal's status, unless the faults of the
/// files rose or it was out of memory. Where a stream among the connections that it closed handed out more bytes of a line than a line may have, it ends with
/// 5, unless the faults of the link or of the keeper rose or it was out of memory. And where the words are those of `sync` and no other status has its cause,
/// all is done, or it was out of memory.
pub fn statuses_come_exactly_there()
    ensures words { OneForOtherWords }
    ensures line { ThreeForALine }
    ensures token { FourForNoToken }
    ensures length { FiveForALength }
    ensures stream { FiveForALongLine }
    ensures done { ZeroForNoCause }
{}
