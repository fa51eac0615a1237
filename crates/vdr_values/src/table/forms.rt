// The forms that rows have, as bench/table writes them: `OF_AV` is one of the letters A and V.
use crate::form::Form;

pub(crate) const NUMBER: Form = Form::Number;

pub(crate) const TIME: Form = Form::Time;

pub(crate) const DATE: Form = Form::Date;

pub(crate) const RAW: Form = Form::Raw;

pub(crate) const LATITUDE: Form = Form::Angle {
    digits: 2,
    greatest: 90,
    places: 6,
};

pub(crate) const LONGITUDE: Form = Form::Angle {
    digits: 3,
    greatest: 180,
    places: 6,
};

pub(crate) const FINE_LAT: Form = Form::Angle {
    digits: 2,
    greatest: 90,
    places: 9,
};

pub(crate) const FINE_LON: Form = Form::Angle {
    digits: 3,
    greatest: 180,
    places: 9,
};

pub(crate) const STATUS: Form = Form::Letter(b"AV");

pub(crate) const CAPITAL: Form = Form::Letter(b"ABCDEFGHIJKLMNOPQRSTUVWXYZ");

pub(crate) const DIGIT: Form = Form::Digits {
    most: 1,
    least: 0,
    greatest: 9,
};

pub(crate) const DIGITS_2: Form = Form::Digits {
    most: 2,
    least: 0,
    greatest: 99,
};

pub(crate) const DIGITS_3: Form = Form::Digits {
    most: 3,
    least: 0,
    greatest: 999,
};

pub(crate) const DIGITS_4: Form = Form::Digits {
    most: 4,
    least: 0,
    greatest: 9999,
};

pub(crate) const DIGITS_5: Form = Form::Digits {
    most: 5,
    least: 0,
    greatest: 99999,
};

pub(crate) const FROM_0_5: Form = Form::Digits {
    most: 1,
    least: 0,
    greatest: 5,
};

pub(crate) const FROM_0_59: Form = Form::Digits {
    most: 2,
    least: 0,
    greatest: 59,
};

pub(crate) const FROM_1_12: Form = Form::Digits {
    most: 2,
    least: 1,
    greatest: 12,
};

pub(crate) const FROM_1_31: Form = Form::Digits {
    most: 2,
    least: 1,
    greatest: 31,
};

pub(crate) const OF_ABC: Form = Form::Letter(b"ABC");

pub(crate) const OF_AMR: Form = Form::Letter(b"AMR");

pub(crate) const OF_AQOS: Form = Form::Letter(b"AQOS");

pub(crate) const OF_AVBHO: Form = Form::Letter(b"AVBHO");

pub(crate) const OF_AVX: Form = Form::Letter(b"AVX");

pub(crate) const OF_BMWRP: Form = Form::Letter(b"BMWRP");

pub(crate) const OF_BPSCEW: Form = Form::Letter(b"BPSCEW");

pub(crate) const OF_BWP: Form = Form::Letter(b"BWP");

pub(crate) const OF_C: Form = Form::Letter(b"C");

pub(crate) const OF_CHN: Form = Form::Letter(b"CHN");

pub(crate) const OF_EAWC: Form = Form::Letter(b"EAWC");

pub(crate) const OF_EW: Form = Form::Letter(b"EW");

pub(crate) const OF_F: Form = Form::Letter(b"F");

pub(crate) const OF_K: Form = Form::Letter(b"K");

pub(crate) const OF_KMNS: Form = Form::Letter(b"KMNS");

pub(crate) const OF_KNS: Form = Form::Letter(b"KNS");

pub(crate) const OF_LOW_CW: Form = Form::Letter(b"cw");

pub(crate) const OF_LOW_F: Form = Form::Letter(b"f");

pub(crate) const OF_LQT: Form = Form::Letter(b"LQT");

pub(crate) const OF_LR: Form = Form::Letter(b"LR");

pub(crate) const OF_M: Form = Form::Letter(b"M");

pub(crate) const OF_MSHTR: Form = Form::Letter(b"MSHTR");

pub(crate) const OF_MT: Form = Form::Letter(b"MT");

pub(crate) const OF_N: Form = Form::Letter(b"N");

pub(crate) const OF_NHJLKX: Form = Form::Letter(b"NHJLKX");

pub(crate) const OF_NS: Form = Form::Letter(b"NS");

pub(crate) const OF_OA: Form = Form::Letter(b"OA");

pub(crate) const OF_OC: Form = Form::Letter(b"OC");

pub(crate) const OF_OCSFX: Form = Form::Letter(b"OCSFX");

pub(crate) const OF_ONV: Form = Form::Letter(b"ONV");

pub(crate) const OF_PDV: Form = Form::Letter(b"PDV");

pub(crate) const OF_PRV: Form = Form::Letter(b"PRV");

pub(crate) const OF_R: Form = Form::Letter(b"R");

pub(crate) const OF_RC: Form = Form::Letter(b"RC");

pub(crate) const OF_RT: Form = Form::Letter(b"RT");

pub(crate) const OF_RTN: Form = Form::Letter(b"RTN");

pub(crate) const OF_SCUV: Form = Form::Letter(b"SCUV");

pub(crate) const OF_SE: Form = Form::Letter(b"SE");

pub(crate) const OF_SEF: Form = Form::Letter(b"SEF");

pub(crate) const OF_SEFD: Form = Form::Letter(b"SEFD");

pub(crate) const OF_T: Form = Form::Letter(b"T");

pub(crate) const OF_TM: Form = Form::Letter(b"TM");

pub(crate) const OF_TR: Form = Form::Letter(b"TR");

pub(crate) const OF_VSAOUN: Form = Form::Letter(b"VSAOUN");

pub(crate) const WHOLE_14: Form = Form::Whole { greatest: 14 };
