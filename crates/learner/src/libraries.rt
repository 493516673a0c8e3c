//! Files that libraries open on their own, later than a program in the mode can.

use crate::places::path_from;

/// What a library opens a file for.
#[derive(Clone, Copy, PartialEq, Eq)]
pub(crate) enum Library {
    TimeZone,
    Locale,
    Accounts,
    Names,
    Device,
    Loader,
    Cryptography,
    LinuxAlone,
}

/// Places of libraries' files, and what they are for. A place stands for what is beneath it too.
const PLACES: [(&[u8], Library); 28] = [
    (b"/etc/localtime", Library::TimeZone),
    (b"/usr/share/zoneinfo", Library::TimeZone),
    (b"/usr/lib/locale", Library::Locale),
    (b"/usr/share/locale", Library::Locale),
    (b"/usr/share/nls", Library::Locale),
    (b"/usr/lib/x86_64-linux-gnu/gconv", Library::Locale),
    (b"/etc/passwd", Library::Accounts),
    (b"/etc/group", Library::Accounts),
    (b"/etc/pwd.db", Library::Accounts),
    (b"/etc/spwd.db", Library::Accounts),
    (b"/etc/nsswitch.conf", Library::Names),
    (b"/etc/resolv.conf", Library::Names),
    (b"/etc/hosts", Library::Names),
    (b"/etc/host.conf", Library::Names),
    (b"/etc/gai.conf", Library::Names),
    (b"/etc/services", Library::Names),
    (b"/etc/protocols", Library::Names),
    (b"/var/run/nscd", Library::Names),
    (b"/run/nscd", Library::Names),
    (b"/dev", Library::Device),
    (b"/etc/ld.so.cache", Library::Loader),
    (b"/lib", Library::Loader),
    (b"/usr/lib", Library::Loader),
    (b"/etc/ssl", Library::Cryptography),
    (b"/usr/lib/ssl", Library::Cryptography),
    (b"/proc", Library::LinuxAlone),
    (b"/sys", Library::LinuxAlone),
    (b"/etc/selinux", Library::LinuxAlone),
];

/// The library that opens what stands at a place, if one does.
pub(crate) fn library_of(place: &[u8]) -> Option<Library> {
    for known in &PLACES {
        if path_from(known.0, place).is_some() {
            return Some(known.1);
        }
    }
    None
}

impl Library {
    /// What a program does so that it isn't opened in the mode.
    pub(crate) fn remedy(self) -> &'static str {
        match self {
            Library::TimeZone => "call tzset(3) or caph_cache_tzdata(3) before the mode",
            Library::Locale => "call setlocale(3) and caph_cache_catpages(3) before the mode",
            Library::Accounts =>
                "ask for accounts before the mode, or by cap_pwd(3) and cap_grp(3) of libcasper(3)",
            Library::Names => "look names up before the mode, or by cap_dns(3) of libcasper(3)",
            Library::Device =>
                "open the device before the mode and keep the descriptor; arc4random(3) needs none",
            Library::Loader =>
                "load libraries before the mode (dlopen(3), or a first call that does it)",
            Library::Cryptography => "load keys and settings before the mode",
            Library::LinuxAlone => "Linux alone has it: look at a record of FreeBSD",
        }
    }
}
