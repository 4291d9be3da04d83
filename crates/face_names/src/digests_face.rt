//! What a user of `mysql_digests` can name: each item that it passes on, by each of its paths.
//! Written by `tools/faces` from the sources. A name that the crate doesn't pass on is refused here.

use mysql_digests::{Mode, digest};

mod digests {
    use mysql_digests::digests::digest;
}

mod laws {
    use mysql_digests::laws::{
        a_text_has_one_digest, digests_have_no_inside, digests_of_small_texts,
        texts_over_one_query_have_one_digest,
    };
}
