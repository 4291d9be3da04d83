//! What a user of `mysql_convert` can name: each item that it passes on, by each of its paths.
//! Written by `tools/faces` from the sources. A name that the crate doesn't pass on is refused here.

use mysql_convert::{
    FromValue, FromValueError, Intermediate, IntoParams, OptionIr2, ParseIr, ParseIrOpt, SetError,
    ToValue, ToValueError, ValueIr, from_value, from_value_opt, get_intermediate,
};

mod conversion {
    use mysql_convert::conversion::{
        FromValue, Intermediate, from_value, from_value_opt, get_intermediate,
    };
}

mod errors {
    use mysql_convert::errors::FromValueError;
}

mod intermediates {
    use mysql_convert::intermediates::{OptionIr2, ParseIr, ParseIrOpt, ValueIr};
}

mod laws {
    use mysql_convert::laws::texts_hold_durations;
}

mod numbers {
    use mysql_convert::numbers::{Integer, Number, text_integer};
}
