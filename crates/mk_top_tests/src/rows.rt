//! Scripts and the reports of their runs.

/// One attempt: a script of 49 bytes.
pub fn first() -> &'static [u8] {
    b"meerkat 1\nsize 1\nclient a 0 0\ntxn a 10 r:x w:x=5\n"
}

/// Its report, of 63 bytes.
pub fn first_report() -> &'static [u8] {
    b"a.1 @10.1 commit fast r:x@0.0=0 w:x=5\nstore x 10.1 5\nend 1 0 0\n"
}

/// Two columns that meet at no key.
pub fn two_workers() -> &'static [u8] {
    b"meerkat 1\nsize 1\nclient a 0 0\nclient b 1 1\ntxn a 10 r:x w:x=5\ntxn b 10 r:y c:y=add(7)\n"
}

pub fn two_workers_report() -> &'static [u8] {
    b"a.1 @10.1 commit fast r:x@0.0=0 w:x=5\nb.1 @10.2 commit fast r:y@0.0=0 w:y=7\n\
      store x 10.1 5\nstore y 10.2 7\nend 2 0 0\n"
}

/// An attempt that an epoch change resolves. Each word is set twice: by a promise and by an adoption.
pub fn resolved() -> &'static [u8] {
    b"meerkat 1\nsize 2\nclient a 0 0\nfault validate a.1 2 1 lose\nfault validate a.1 3 1 lose\n\
      fault validate a.1 4 1 lose\nfault ask a.1 3 1 lose\nfault ask a.1 4 1 lose\ntxn a 10 w:x=5\n\
      takeover a.1 1\nask 1\npromise 1 1\npromise 1 0\npromise 1 2\nmerge 1\n\
      adopt 1 0\nadopt 1 1\nadopt 1 2\nenter 1\n"
}

pub fn resolved_report() -> &'static [u8] {
    b"a.1 @10.1 commit epoch 1 w:x=5\nask 1\npromise 1 1 ok\npromise 1 0 ok\npromise 1 2 ok\n\
      merge 1 ok 1 0\nadopt 1 0 ok\nadopt 1 1 ok\nadopt 1 2 ok\nenter 1 ok 3\n\
      store x 10.1 5\nend 1 0 0\n"
}

/// Promises that come again.
pub fn promised_again() -> &'static [u8] {
    b"meerkat 1\nsize 1\nclient a 0 0\ntxn a 10 w:x=5\nask 1\npromise 1 1\npromise 1 0\nmerge 1\n\
      promise 1 1\nmerge 1\nenter 1\n"
}
