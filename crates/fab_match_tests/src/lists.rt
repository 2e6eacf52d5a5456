//! Forty lists of calls of a store with room for four receives, and three of one with room for three.
//! The first two were worked by hand from fi_tagged(3), "fi_trecv", as were the last three. The other
//! answers were computed by a script that keeps plain lists and compares tags bit by bit. Twenty-six
//! lists are random.
use crate::calls::Answer::{Id, No, Nothing, Yes};
use crate::calls::Call::{
    Arrive, FirstPosted, FirstUnexpected, Post, RemovePosted, RemoveUnexpected, TakePosted,
    TakeUnexpected,
};
use crate::calls::Step;
use fab_base::{Sign, Want};

const ANY_5: Want = Want {
    tagged: true,
    tag: 5,
    ignore: 0,
    source: None,
};

const ANY_4: Want = Want {
    tagged: true,
    tag: 4,
    ignore: 0,
    source: None,
};

const ONLY_3_TAG_5: Want = Want {
    tagged: true,
    tag: 5,
    ignore: 0,
    source: Some(3),
};

const ONLY_2_TAG_5: Want = Want {
    tagged: true,
    tag: 5,
    ignore: 0,
    source: Some(2),
};

const EVERY_TAG: Want = Want {
    tagged: true,
    tag: 5,
    ignore: u64::MAX,
    source: None,
};

const ONLY_2_EVERY_TAG: Want = Want {
    tagged: true,
    tag: 9,
    ignore: u64::MAX,
    source: Some(2),
};

const ANY_4_OR_5: Want = Want {
    tagged: true,
    tag: 4,
    ignore: 1,
    source: None,
};

const ANY_LOW_BITS_5: Want = Want {
    tagged: true,
    tag: 5,
    ignore: u64::MAX - 7,
    source: None,
};

const ANY_HIGH_BIT: Want = Want {
    tagged: true,
    tag: 1 << 63,
    ignore: (1 << 63) - 1,
    source: None,
};

const UNTAGGED: Want = Want {
    tagged: false,
    tag: 0,
    ignore: 0,
    source: None,
};

const ONLY_3_UNTAGGED: Want = Want {
    tagged: false,
    tag: 5,
    ignore: 0,
    source: Some(3),
};

const ANY_7: Want = Want {
    tagged: true,
    tag: 7,
    ignore: 0,
    source: None,
};

const ONLY_2_UNTAGGED: Want = Want {
    tagged: false,
    tag: 0,
    ignore: 0,
    source: Some(2),
};

const TAG_5_OF_2: Sign = Sign {
    tagged: true,
    tag: 5,
    source: 2,
};

const TAG_5_OF_3: Sign = Sign {
    tagged: true,
    tag: 5,
    source: 3,
};

const TAG_4_OF_2: Sign = Sign {
    tagged: true,
    tag: 4,
    source: 2,
};

const TAG_4_OF_3: Sign = Sign {
    tagged: true,
    tag: 4,
    source: 3,
};

const TAG_13_OF_2: Sign = Sign {
    tagged: true,
    tag: 13,
    source: 2,
};

const TAG_HIGH_OF_0: Sign = Sign {
    tagged: true,
    tag: (1 << 63) + 5,
    source: 0,
};

const PLAIN_OF_2: Sign = Sign {
    tagged: false,
    tag: 0,
    source: 2,
};

const PLAIN_OF_3: Sign = Sign {
    tagged: false,
    tag: 0,
    source: 3,
};

const PLAIN_5_OF_3: Sign = Sign {
    tagged: false,
    tag: 5,
    source: 3,
};

const TAG_7_OF_9: Sign = Sign {
    tagged: true,
    tag: 7,
    source: 9,
};

const PLAIN_7_OF_2: Sign = Sign {
    tagged: false,
    tag: 7,
    source: 2,
};

const PLAIN_7_OF_3: Sign = Sign {
    tagged: false,
    tag: 7,
    source: 3,
};

/// Which of several matches is the first.
const FIRST: [&[Step]; 4] = [
    // Tags 4 and 5 differ only in the lowest bit.
    &[
        (Arrive(1, TAG_5_OF_2), Yes),
        (FirstUnexpected(ANY_4_OR_5), Id(1)),
        (FirstUnexpected(ANY_4), Nothing),
    ],
    // A wildcard posted first goes before exact tags.
    &[
        (Post(1, EVERY_TAG), Yes),
        (Post(2, ONLY_3_TAG_5), Yes),
        (Post(3, ANY_5), Yes),
        (FirstPosted(TAG_5_OF_3), Id(1)),
        (RemovePosted(1), Yes),
        (FirstPosted(TAG_5_OF_3), Id(2)),
        (RemovePosted(2), Yes),
        (FirstPosted(TAG_5_OF_3), Id(3)),
    ],
    // An exact tag posted first goes before a wildcard.
    &[
        (Post(1, ANY_5), Yes),
        (Post(2, EVERY_TAG), Yes),
        (FirstPosted(TAG_5_OF_2), Id(1)),
        (FirstPosted(TAG_4_OF_2), Id(2)),
    ],
    // The oldest of equal messages.
    &[
        (Arrive(7, TAG_5_OF_2), Yes),
        (Arrive(3, TAG_5_OF_2), Yes),
        (Arrive(5, TAG_5_OF_2), Yes),
        (FirstUnexpected(ANY_5), Id(7)),
        (TakeUnexpected(ANY_5), Id(7)),
        (TakeUnexpected(ANY_5), Id(3)),
        (TakeUnexpected(ANY_5), Id(5)),
        (TakeUnexpected(ANY_5), Nothing),
    ],
];

/// Sources and kinds of messages.
const KINDS: [&[Step]; 3] = [
    // Another source does not match.
    &[
        (Post(1, ONLY_3_TAG_5), Yes),
        (FirstPosted(TAG_5_OF_2), Nothing),
        (FirstPosted(TAG_5_OF_3), Id(1)),
        (Arrive(1, TAG_5_OF_2), Yes),
        (FirstUnexpected(ONLY_3_TAG_5), Nothing),
        (FirstUnexpected(ONLY_2_TAG_5), Id(1)),
    ],
    // Tagged and untagged never match, whatever the mask.
    &[
        (Post(1, EVERY_TAG), Yes),
        (FirstPosted(PLAIN_OF_2), Nothing),
        (FirstPosted(PLAIN_5_OF_3), Nothing),
        (Post(2, UNTAGGED), Yes),
        (FirstPosted(PLAIN_OF_2), Id(2)),
        (FirstPosted(TAG_5_OF_2), Id(1)),
        (Arrive(1, PLAIN_5_OF_3), Yes),
        (FirstUnexpected(EVERY_TAG), Nothing),
        (FirstUnexpected(UNTAGGED), Id(1)),
    ],
    // The tag of an untagged message is not looked at.
    &[
        (Arrive(1, PLAIN_OF_3), Yes),
        (FirstUnexpected(ONLY_3_UNTAGGED), Id(1)),
        (Post(1, ONLY_3_UNTAGGED), Yes),
        (FirstPosted(PLAIN_OF_3), Id(1)),
        (FirstPosted(PLAIN_OF_2), Nothing),
    ],
];

/// What a removal leaves.
const REMOVALS: [&[Step]; 3] = [
    // The two lists have ids of their own.
    &[
        (Post(1, ANY_5), Yes),
        (Arrive(1, TAG_4_OF_2), Yes),
        (RemoveUnexpected(1), Yes),
        (FirstPosted(TAG_5_OF_2), Id(1)),
        (RemovePosted(1), Yes),
        (Arrive(2, TAG_5_OF_2), Yes),
        (RemovePosted(2), No),
        (FirstUnexpected(ANY_5), Id(2)),
    ],
    // A removal from the middle keeps the order.
    &[
        (Post(1, ANY_4), Yes),
        (Post(2, ANY_5), Yes),
        (Post(3, EVERY_TAG), Yes),
        (Post(4, ANY_4_OR_5), Yes),
        (RemovePosted(2), Yes),
        (TakePosted(TAG_5_OF_2), Id(3)),
        (TakePosted(TAG_5_OF_2), Id(4)),
        (TakePosted(TAG_5_OF_2), Nothing),
    ],
    // A removal of the first keeps the order.
    &[
        (Arrive(1, TAG_4_OF_2), Yes),
        (Arrive(2, TAG_5_OF_2), Yes),
        (Arrive(3, TAG_5_OF_3), Yes),
        (Arrive(4, TAG_13_OF_2), Yes),
        (RemoveUnexpected(1), Yes),
        (TakeUnexpected(EVERY_TAG), Id(2)),
        (TakeUnexpected(EVERY_TAG), Id(3)),
        (TakeUnexpected(EVERY_TAG), Id(4)),
    ],
];

/// Ids that are given again, and room for four receives.
const IDS: [&[Step]; 3] = [
    // A removal of what is not there changes nothing.
    &[
        (RemovePosted(1), No),
        (RemoveUnexpected(1), No),
        (Post(2, ANY_5), Yes),
        (RemovePosted(1), No),
        (FirstPosted(TAG_5_OF_2), Id(2)),
        (RemovePosted(2), Yes),
        (RemovePosted(2), No),
        (FirstPosted(TAG_5_OF_2), Nothing),
    ],
    // An id is new again once it is out, and stands last.
    &[
        (Post(1, ANY_5), Yes),
        (Post(2, ANY_5), Yes),
        (Post(1, ANY_4), No),
        (RemovePosted(1), Yes),
        (Post(1, ANY_5), Yes),
        (FirstPosted(TAG_5_OF_2), Id(2)),
        (RemovePosted(2), Yes),
        (FirstPosted(TAG_5_OF_2), Id(1)),
    ],
    // Room for four receives.
    &[
        (Post(1, ANY_5), Yes),
        (Post(2, ANY_5), Yes),
        (Post(3, ANY_5), Yes),
        (Post(4, ANY_5), Yes),
        (Post(5, ANY_4), No),
        (FirstPosted(TAG_4_OF_2), Nothing),
        (RemovePosted(3), Yes),
        (Post(5, ANY_4), Yes),
        (FirstPosted(TAG_4_OF_2), Id(5)),
    ],
];

/// Every bit counts.
const BITS: [&[Step]; 1] = [
    // The highest bit counts.
    &[
        (Post(1, ANY_5), Yes),
        (FirstPosted(TAG_HIGH_OF_0), Nothing),
        (Post(2, ANY_HIGH_BIT), Yes),
        (FirstPosted(TAG_HIGH_OF_0), Id(2)),
        (FirstPosted(TAG_5_OF_2), Id(1)),
        (Post(3, ANY_LOW_BITS_5), Yes),
        (RemovePosted(2), Yes),
        (FirstPosted(TAG_HIGH_OF_0), Id(3)),
        (FirstPosted(TAG_13_OF_2), Id(3)),
    ],
];

/// At random.
const RANDOM_1: [&[Step]; 2] = [
    &[
        (Post(5, ANY_HIGH_BIT), Yes),
        (Post(4, ANY_4), Yes),
        (Post(5, ONLY_2_TAG_5), No),
        (Post(5, ONLY_2_TAG_5), No),
        (Arrive(3, TAG_4_OF_2), Yes),
        (Arrive(3, TAG_5_OF_2), No),
        (RemovePosted(5), Yes),
        (TakePosted(TAG_4_OF_3), Id(4)),
        (FirstUnexpected(ANY_4), Id(3)),
        (FirstUnexpected(ONLY_3_TAG_5), Nothing),
        (FirstPosted(PLAIN_OF_2), Nothing),
    ],
    &[
        (Arrive(3, PLAIN_OF_3), Yes),
        (Post(3, ANY_HIGH_BIT), Yes),
        (Post(3, ANY_LOW_BITS_5), No),
        (Post(3, ONLY_2_TAG_5), No),
        (Arrive(3, TAG_4_OF_2), No),
        (FirstUnexpected(ONLY_2_EVERY_TAG), Nothing),
        (TakePosted(TAG_HIGH_OF_0), Id(3)),
        (TakeUnexpected(ONLY_3_UNTAGGED), Id(3)),
        (TakeUnexpected(ANY_HIGH_BIT), Nothing),
        (RemoveUnexpected(4), No),
        (TakePosted(TAG_4_OF_3), Nothing),
    ],
];

/// More of these.
const RANDOM_2: [&[Step]; 2] = [
    &[
        (Post(4, ANY_LOW_BITS_5), Yes),
        (Arrive(1, TAG_HIGH_OF_0), Yes),
        (Post(4, ANY_4_OR_5), No),
        (Arrive(3, TAG_5_OF_2), Yes),
        (Post(4, UNTAGGED), No),
        (Arrive(4, TAG_4_OF_3), Yes),
        (RemoveUnexpected(4), Yes),
        (TakeUnexpected(ANY_HIGH_BIT), Id(1)),
        (FirstUnexpected(ONLY_3_UNTAGGED), Nothing),
        (TakeUnexpected(ANY_HIGH_BIT), Nothing),
        (RemovePosted(2), No),
    ],
    &[
        (Post(5, ONLY_2_TAG_5), Yes),
        (Post(5, UNTAGGED), No),
        (Arrive(3, PLAIN_OF_3), Yes),
        (Post(4, ANY_HIGH_BIT), Yes),
        (Arrive(2, PLAIN_OF_3), Yes),
        (RemoveUnexpected(1), No),
        (FirstUnexpected(UNTAGGED), Id(3)),
        (FirstPosted(TAG_4_OF_2), Nothing),
        (TakeUnexpected(ANY_4), Nothing),
        (RemoveUnexpected(4), No),
    ],
];

/// More of these.
const RANDOM_3: [&[Step]; 2] = [
    &[
        (Post(3, UNTAGGED), Yes),
        (Arrive(5, PLAIN_OF_2), Yes),
        (Post(3, ANY_5), No),
        (Arrive(5, TAG_5_OF_2), No),
        (Post(3, ONLY_3_TAG_5), No),
        (Arrive(3, TAG_5_OF_3), Yes),
        (Post(4, ANY_5), Yes),
        (RemoveUnexpected(5), Yes),
        (TakePosted(PLAIN_OF_2), Id(3)),
        (RemoveUnexpected(5), No),
        (FirstPosted(TAG_4_OF_3), Nothing),
        (TakePosted(TAG_5_OF_2), Id(4)),
    ],
    &[
        (Arrive(3, TAG_4_OF_2), Yes),
        (Arrive(2, TAG_4_OF_3), Yes),
        (Arrive(2, TAG_5_OF_3), No),
        (Post(2, ONLY_3_TAG_5), Yes),
        (Post(1, ONLY_2_EVERY_TAG), Yes),
        (Post(4, ONLY_2_TAG_5), Yes),
        (Post(2, UNTAGGED), No),
        (FirstUnexpected(ANY_LOW_BITS_5), Nothing),
        (FirstPosted(TAG_4_OF_2), Id(1)),
        (FirstUnexpected(ANY_4_OR_5), Id(3)),
        (FirstUnexpected(UNTAGGED), Nothing),
        (TakePosted(PLAIN_OF_3), Nothing),
        (FirstUnexpected(ONLY_2_TAG_5), Nothing),
    ],
];

/// More of these.
const RANDOM_4: [&[Step]; 2] = [
    &[
        (Post(1, UNTAGGED), Yes),
        (Post(5, ANY_4), Yes),
        (Arrive(4, PLAIN_OF_2), Yes),
        (Post(3, ANY_LOW_BITS_5), Yes),
        (Arrive(5, TAG_4_OF_2), Yes),
        (Arrive(3, PLAIN_OF_2), Yes),
        (Post(1, ONLY_2_TAG_5), No),
        (RemovePosted(1), Yes),
        (RemoveUnexpected(3), Yes),
        (TakePosted(TAG_13_OF_2), Id(3)),
        (FirstPosted(TAG_4_OF_3), Id(5)),
        (RemovePosted(4), No),
        (RemovePosted(1), No),
    ],
    &[
        (Arrive(2, TAG_4_OF_2), Yes),
        (Post(5, ANY_5), Yes),
        (Post(4, ONLY_2_TAG_5), Yes),
        (Post(1, ONLY_3_UNTAGGED), Yes),
        (Post(5, ONLY_3_UNTAGGED), No),
        (Arrive(5, TAG_5_OF_3), Yes),
        (TakePosted(TAG_4_OF_3), Nothing),
        (TakePosted(TAG_HIGH_OF_0), Nothing),
        (RemovePosted(4), Yes),
        (TakePosted(TAG_5_OF_3), Id(5)),
        (FirstPosted(PLAIN_OF_2), Nothing),
    ],
];

/// More of these.
const RANDOM_5: [&[Step]; 2] = [
    &[
        (Post(3, UNTAGGED), Yes),
        (Post(4, ANY_4_OR_5), Yes),
        (Arrive(3, TAG_4_OF_2), Yes),
        (Arrive(3, TAG_13_OF_2), No),
        (Post(2, ANY_5), Yes),
        (Arrive(2, TAG_HIGH_OF_0), Yes),
        (TakePosted(PLAIN_OF_2), Id(3)),
        (RemovePosted(1), No),
        (FirstPosted(PLAIN_OF_3), Nothing),
        (RemoveUnexpected(5), No),
        (RemovePosted(2), Yes),
    ],
    &[
        (Post(5, ONLY_2_EVERY_TAG), Yes),
        (Arrive(2, TAG_4_OF_2), Yes),
        (Arrive(3, TAG_5_OF_2), Yes),
        (Post(4, ANY_4), Yes),
        (Arrive(1, PLAIN_OF_3), Yes),
        (Post(2, ONLY_2_EVERY_TAG), Yes),
        (Post(5, ANY_4), No),
        (TakeUnexpected(ANY_4_OR_5), Id(2)),
        (TakeUnexpected(ANY_HIGH_BIT), Nothing),
        (RemovePosted(5), Yes),
        (TakePosted(PLAIN_OF_3), Nothing),
        (RemoveUnexpected(1), Yes),
    ],
];

/// More of these.
const RANDOM_6: [&[Step]; 2] = [
    &[
        (Arrive(5, TAG_13_OF_2), Yes),
        (Post(3, ANY_4_OR_5), Yes),
        (Post(2, EVERY_TAG), Yes),
        (Arrive(1, TAG_13_OF_2), Yes),
        (Post(3, ONLY_2_EVERY_TAG), No),
        (RemoveUnexpected(3), No),
        (FirstPosted(TAG_5_OF_3), Id(3)),
        (FirstUnexpected(ANY_4_OR_5), Nothing),
        (TakeUnexpected(UNTAGGED), Nothing),
        (TakePosted(TAG_4_OF_3), Id(3)),
        (FirstPosted(PLAIN_OF_3), Nothing),
    ],
    &[
        (Post(3, ANY_4_OR_5), Yes),
        (Post(4, ANY_4_OR_5), Yes),
        (Arrive(3, TAG_5_OF_3), Yes),
        (Arrive(4, TAG_HIGH_OF_0), Yes),
        (Post(2, ANY_5), Yes),
        (Post(5, UNTAGGED), Yes),
        (TakePosted(TAG_13_OF_2), Nothing),
        (FirstPosted(TAG_5_OF_3), Id(3)),
        (RemoveUnexpected(1), No),
        (RemoveUnexpected(4), Yes),
        (RemovePosted(1), No),
    ],
];

/// More of these.
const RANDOM_7: [&[Step]; 2] = [
    &[
        (Arrive(2, TAG_HIGH_OF_0), Yes),
        (Arrive(5, PLAIN_5_OF_3), Yes),
        (Post(1, ANY_4), Yes),
        (Post(4, ANY_4_OR_5), Yes),
        (Arrive(4, PLAIN_OF_2), Yes),
        (Post(1, UNTAGGED), No),
        (FirstPosted(TAG_5_OF_2), Id(4)),
        (RemovePosted(5), No),
        (FirstPosted(TAG_4_OF_2), Id(1)),
        (FirstPosted(PLAIN_OF_3), Nothing),
        (FirstPosted(TAG_4_OF_2), Id(1)),
        (TakePosted(TAG_4_OF_3), Id(1)),
    ],
    &[
        (Post(3, ANY_4_OR_5), Yes),
        (Arrive(4, PLAIN_OF_2), Yes),
        (Post(5, ANY_4), Yes),
        (Arrive(4, TAG_5_OF_2), No),
        (Arrive(2, TAG_HIGH_OF_0), Yes),
        (Arrive(5, TAG_5_OF_2), Yes),
        (Post(5, ONLY_2_EVERY_TAG), No),
        (Post(1, EVERY_TAG), Yes),
        (TakePosted(TAG_13_OF_2), Id(1)),
        (RemoveUnexpected(5), Yes),
        (TakePosted(PLAIN_OF_3), Nothing),
        (RemovePosted(4), No),
        (TakeUnexpected(ONLY_2_TAG_5), Nothing),
        (RemoveUnexpected(1), No),
    ],
];

/// More of these.
const RANDOM_8: [&[Step]; 2] = [
    &[
        (Arrive(2, TAG_4_OF_3), Yes),
        (Arrive(4, PLAIN_OF_3), Yes),
        (Post(2, ONLY_2_EVERY_TAG), Yes),
        (Post(5, ONLY_3_UNTAGGED), Yes),
        (Arrive(4, TAG_5_OF_3), No),
        (Post(1, ANY_4), Yes),
        (FirstPosted(PLAIN_OF_3), Id(5)),
        (FirstUnexpected(ONLY_3_TAG_5), Nothing),
        (TakePosted(TAG_5_OF_2), Id(2)),
        (RemovePosted(4), No),
        (RemoveUnexpected(1), No),
    ],
    &[
        (Post(5, ANY_4), Yes),
        (Arrive(2, TAG_HIGH_OF_0), Yes),
        (Arrive(1, TAG_HIGH_OF_0), Yes),
        (Arrive(1, PLAIN_OF_3), No),
        (Post(5, ANY_HIGH_BIT), No),
        (Post(4, ONLY_2_TAG_5), Yes),
        (RemoveUnexpected(5), No),
        (FirstUnexpected(EVERY_TAG), Id(2)),
        (FirstPosted(TAG_13_OF_2), Nothing),
        (TakePosted(TAG_13_OF_2), Nothing),
        (RemovePosted(1), No),
        (RemovePosted(4), Yes),
    ],
];

/// More of these.
const RANDOM_9: [&[Step]; 2] = [
    &[
        (Arrive(2, TAG_5_OF_3), Yes),
        (Post(1, UNTAGGED), Yes),
        (Arrive(4, TAG_5_OF_3), Yes),
        (Post(1, ANY_LOW_BITS_5), No),
        (Arrive(3, PLAIN_OF_2), Yes),
        (Post(1, ONLY_2_TAG_5), No),
        (Arrive(2, PLAIN_OF_2), No),
        (TakeUnexpected(ANY_LOW_BITS_5), Id(2)),
        (TakeUnexpected(ONLY_3_TAG_5), Id(4)),
        (TakePosted(PLAIN_OF_2), Id(1)),
        (FirstUnexpected(ONLY_3_TAG_5), Nothing),
        (RemovePosted(3), No),
        (RemovePosted(4), No),
    ],
    &[
        (Arrive(4, PLAIN_OF_2), Yes),
        (Post(2, ONLY_2_EVERY_TAG), Yes),
        (Post(2, ANY_4_OR_5), No),
        (Arrive(2, TAG_13_OF_2), Yes),
        (Post(3, ONLY_2_TAG_5), Yes),
        (Post(4, EVERY_TAG), Yes),
        (TakeUnexpected(ANY_4_OR_5), Nothing),
        (RemoveUnexpected(1), No),
        (TakeUnexpected(ANY_HIGH_BIT), Nothing),
        (TakeUnexpected(ANY_5), Nothing),
        (TakePosted(TAG_13_OF_2), Id(2)),
    ],
];

/// More of these.
const RANDOM_10: [&[Step]; 2] = [
    &[
        (Arrive(2, TAG_13_OF_2), Yes),
        (Post(5, ANY_LOW_BITS_5), Yes),
        (Post(2, ANY_4_OR_5), Yes),
        (Arrive(4, PLAIN_5_OF_3), Yes),
        (Post(3, ANY_4_OR_5), Yes),
        (Arrive(1, TAG_5_OF_3), Yes),
        (Arrive(2, TAG_13_OF_2), No),
        (TakeUnexpected(UNTAGGED), Id(4)),
        (FirstPosted(TAG_HIGH_OF_0), Id(5)),
        (FirstUnexpected(ONLY_2_TAG_5), Nothing),
        (TakePosted(TAG_4_OF_3), Id(2)),
        (TakeUnexpected(ANY_HIGH_BIT), Nothing),
        (TakeUnexpected(ANY_5), Id(1)),
    ],
    &[
        (Post(5, ANY_4), Yes),
        (Arrive(3, TAG_HIGH_OF_0), Yes),
        (Arrive(3, TAG_5_OF_2), No),
        (Post(3, ANY_LOW_BITS_5), Yes),
        (Arrive(5, PLAIN_OF_3), Yes),
        (Post(5, ONLY_3_UNTAGGED), No),
        (FirstPosted(TAG_5_OF_3), Id(3)),
        (FirstUnexpected(UNTAGGED), Id(5)),
        (TakeUnexpected(ANY_HIGH_BIT), Id(3)),
        (RemoveUnexpected(3), No),
        (RemoveUnexpected(4), No),
        (TakeUnexpected(ANY_5), Nothing),
    ],
];

/// More of these.
const RANDOM_11: [&[Step]; 2] = [
    &[
        (Post(1, ANY_4), Yes),
        (Arrive(5, TAG_4_OF_3), Yes),
        (Post(2, ANY_5), Yes),
        (Post(4, ANY_4_OR_5), Yes),
        (Arrive(5, TAG_5_OF_2), No),
        (Post(4, ANY_5), No),
        (FirstPosted(TAG_5_OF_3), Id(2)),
        (FirstPosted(TAG_4_OF_3), Id(1)),
        (TakeUnexpected(ANY_LOW_BITS_5), Nothing),
        (RemovePosted(5), No),
        (FirstUnexpected(ANY_5), Nothing),
    ],
    &[
        (Post(3, ONLY_3_UNTAGGED), Yes),
        (Post(1, ANY_LOW_BITS_5), Yes),
        (Arrive(5, PLAIN_OF_2), Yes),
        (Arrive(4, TAG_4_OF_3), Yes),
        (Post(2, ONLY_2_EVERY_TAG), Yes),
        (Arrive(5, TAG_5_OF_3), No),
        (Arrive(4, TAG_5_OF_3), No),
        (TakePosted(TAG_4_OF_2), Id(2)),
        (TakePosted(TAG_13_OF_2), Id(1)),
        (TakePosted(TAG_HIGH_OF_0), Nothing),
        (TakeUnexpected(ONLY_3_TAG_5), Nothing),
        (FirstUnexpected(ONLY_2_TAG_5), Nothing),
        (RemoveUnexpected(1), No),
    ],
];

/// More of these.
const RANDOM_12: [&[Step]; 2] = [
    &[
        (Post(4, EVERY_TAG), Yes),
        (Arrive(1, PLAIN_OF_2), Yes),
        (Post(2, ONLY_2_EVERY_TAG), Yes),
        (Post(2, ANY_5), No),
        (Arrive(5, TAG_4_OF_3), Yes),
        (Arrive(3, PLAIN_OF_2), Yes),
        (Arrive(5, PLAIN_OF_2), No),
        (RemoveUnexpected(5), Yes),
        (FirstUnexpected(ONLY_3_TAG_5), Nothing),
        (FirstPosted(TAG_13_OF_2), Id(4)),
        (RemovePosted(2), Yes),
        (RemoveUnexpected(3), Yes),
        (FirstPosted(TAG_13_OF_2), Id(4)),
    ],
    &[
        (Post(2, ANY_4_OR_5), Yes),
        (Arrive(3, TAG_4_OF_3), Yes),
        (Post(5, ONLY_2_TAG_5), Yes),
        (Arrive(4, TAG_5_OF_2), Yes),
        (Post(4, ONLY_2_EVERY_TAG), Yes),
        (Post(5, UNTAGGED), No),
        (RemoveUnexpected(5), No),
        (RemoveUnexpected(3), Yes),
        (FirstPosted(TAG_13_OF_2), Id(4)),
        (TakePosted(TAG_13_OF_2), Id(4)),
        (TakePosted(TAG_13_OF_2), Nothing),
    ],
];

/// More of these.
const RANDOM_13: [&[Step]; 2] = [
    &[
        (Arrive(5, TAG_5_OF_3), Yes),
        (Post(3, ANY_5), Yes),
        (Post(1, EVERY_TAG), Yes),
        (Post(4, EVERY_TAG), Yes),
        (Arrive(5, TAG_4_OF_3), No),
        (FirstUnexpected(ANY_LOW_BITS_5), Id(5)),
        (RemoveUnexpected(5), Yes),
        (RemovePosted(2), No),
        (RemovePosted(4), Yes),
        (RemoveUnexpected(1), No),
    ],
    &[
        (Arrive(5, TAG_13_OF_2), Yes),
        (Post(2, ANY_5), Yes),
        (Arrive(3, TAG_5_OF_2), Yes),
        (Post(2, ONLY_2_TAG_5), No),
        (Post(1, ANY_4_OR_5), Yes),
        (RemovePosted(4), No),
        (TakePosted(TAG_4_OF_2), Id(1)),
        (TakeUnexpected(ONLY_3_TAG_5), Nothing),
        (FirstPosted(TAG_4_OF_3), Nothing),
        (TakePosted(TAG_HIGH_OF_0), Nothing),
        (RemoveUnexpected(5), Yes),
    ],
];

/// With room for three receives.
pub(crate) const OF_THREE: [&[Step]; 3] = [
    // A message goes to the receive that was posted first.
    &[
        (Post(1, EVERY_TAG), Yes),
        (Post(2, ONLY_3_TAG_5), Yes),
        (Post(3, ANY_5), Yes),
        (FirstPosted(TAG_5_OF_3), Id(1)),
        (RemovePosted(1), Yes),
        (FirstPosted(TAG_5_OF_3), Id(2)),
        (RemovePosted(2), Yes),
        (FirstPosted(TAG_5_OF_3), Id(3)),
        (RemovePosted(2), No),
    ],
    // A receive gets the message that came first.
    &[
        (Arrive(1, TAG_5_OF_2), Yes),
        (FirstUnexpected(ANY_4_OR_5), Id(1)),
        (Arrive(1, TAG_4_OF_2), No),
        (Arrive(2, TAG_5_OF_3), Yes),
        (FirstUnexpected(ONLY_3_TAG_5), Id(2)),
        (FirstUnexpected(ANY_5), Id(1)),
        (FirstUnexpected(UNTAGGED), Nothing),
        (RemoveUnexpected(1), Yes),
        (FirstUnexpected(ANY_5), Id(2)),
        (FirstUnexpected(ANY_4_OR_5), Id(2)),
    ],
    // Untagged receives stand by their source.
    &[
        (Post(4, UNTAGGED), Yes),
        (Post(5, ONLY_2_UNTAGGED), Yes),
        (Post(6, ANY_7), Yes),
        (Post(7, UNTAGGED), No),
        (FirstPosted(PLAIN_7_OF_2), Id(4)),
        (RemovePosted(4), Yes),
        (Post(4, ONLY_2_UNTAGGED), Yes),
        (FirstPosted(PLAIN_7_OF_2), Id(5)),
        (FirstPosted(PLAIN_7_OF_3), Nothing),
        (FirstPosted(TAG_7_OF_9), Id(6)),
    ],
];

/// The lists of one subject each.
pub(crate) const LISTS: [&[&[Step]]; 5] = [&FIRST, &KINDS, &REMOVALS, &IDS, &BITS];

/// The random lists.
pub(crate) const RANDOM: [&[&[Step]]; 13] = [
    &RANDOM_1, &RANDOM_2, &RANDOM_3, &RANDOM_4, &RANDOM_5, &RANDOM_6, &RANDOM_7, &RANDOM_8,
    &RANDOM_9, &RANDOM_10, &RANDOM_11, &RANDOM_12, &RANDOM_13,
];
