//! Reads the words of a command line.
ghost use Rattle.std.specs.Prelude.{◌≡◌, ◌≤◌, ◌<◌, ℕ, IfSome, Some, None, IsTrue, length, bytes_eq};
ghost use Rattle.std.specs.Option.{option_map};
ghost use Rattle.dpe_messages.specs.Request.{inline, descriptor};
ghost use Rattle.dpe_grammar.specs.Values.{texts, value_of};
ghost use Rattle.dpe_grammar.specs.Options.{bytes_in as bytes_within};
ghost use Rattle.dpe_grammar.specs.Acts.{act_of, config_of, derive_line, name_if, IsInRange, IsDeriveInRange, IsShort, profile};
ghost use Rattle.dpe_grammar.specs.Grammar.{first_name as first_name_of, old_in, first_old as first_old_of, last_word as word_last, config_at as configuration_at, derive_in, derive_options_in, sign_in, seal_in, unseal_in, rotate_in, initialize_in, destroy_in, raw_in, at_end, act_named, link_in, asking_in, asking_of, label_at as label_of, keep_at as keep_of, has_only as are_only};

use crate::act::{Act, Config, Derive, Seal, Sign, Unseal};
use crate::options::{
    are_known, are_single, bytes_at, bytes_or_none, flag, input_at, number_at, number_or,
    optional_input, optional_name, optional_number, parse_input, value_at,
};
use crate::value::{Value, bytes_in, parse_name};

/// The most bytes of a label, a descriptor, a message or plaintext, and a raw payload.
const MAX_LABEL: usize = 64;

const MAX_DESCRIPTOR: usize = 1_024;

const MAX_MESSAGE: usize = 2_048;

const MAX_RAW: usize = 4_000;

/// The highest mode, locality, mask of localities and mask of modes.
const MAX_MODE: u8 = 3;

const MAX_LOCALITY: u8 = 7;

const ALL_LOCALITIES: u8 = 255;

const ALL_MODES: u8 = 15;

/// The keys of `derive`.
const DERIVE_KEYS: [&[u8]; 10] = [
    b"code=",
    b"config=",
    b"descriptor=",
    b"authority=",
    b"mode=",
    b"hidden=",
    b"keep=",
    b"locality=",
    b"final",
    b"default",
];

/// A command and the number of the link that it is for.
#[derive(Clone, Copy)]
pub struct Asking<'a> {
    pub link: u8,
    pub act: Act<'a>,
}

// Whether a word is this one.
fn is_word(word: &[u8], name: &[u8]) -> bool
    ensures { result ≡ bytes_eq word.now name.now }
{
    word == name
}

// Whether the words begin with these keys, each at most once.
fn has_only(words: &[&[u8]], keys: &[&[u8]]) -> bool
    ensures { result ≡ are_only (texts keys.now) (texts words.now) }
{
    are_known(words, keys) && are_single(words, keys)
}

// A name, and the words behind it.
fn first_name<'a, 'w>(words: &'w [&'a [u8]]) -> Option<(&'a [u8], &'w [&'a [u8]])>
    ensures { option_map (λ p. (p.0.now, texts p.1.now)) result ≡ first_name_of (texts words.now) }
{
    let (word, others) = words.split_first()?;
    Some((parse_name(word)?, others))
}

// The name of the handle that is used, or a dash for none.
fn parse_old<'a>(word: &'a [u8]) -> Option<Option<&'a [u8]>>
    ensures { option_map name_if result ≡ old_in word.now }
{
    if is_word(word, b"-") {
        return Some(None);
    }
    Some(Some(parse_name(word)?))
}

// That, and the words behind it.
fn first_old<'a, 'w>(words: &'w [&'a [u8]]) -> Option<(Option<&'a [u8]>, &'w [&'a [u8]])>
    ensures { option_map (λ p. (name_if p.0, texts p.1.now)) result ≡ first_old_of (texts words.now) }
{
    let (word, others) = words.split_first()?;
    Some((parse_old(word)?, others))
}

// Whether this word stands at the end: nothing more, or the word alone.
fn last_word(words: &[&[u8]], flag: &[u8]) -> Option<bool>
    ensures { result ≡ word_last flag.now (texts words.now) }
{
    match words.split_first() {
        None => Some(false),
        Some((word, others)) => {
            if others.is_empty() && is_word(word, flag) {
                return Some(true);
            }
            None
        }
    }
}

fn inline_config<'a>(text: &'a [u8]) -> Option<Config<'a>>
    ensures { option_map config_of result ≡ option_map inline (bytes_within 64 64 text.now) }
{
    Some(Config::Inline(parse_input(text)?))
}

fn descriptor_config<'a>(text: &'a [u8]) -> Option<Config<'a>>
    ensures value { option_map config_of result ≡ option_map descriptor (bytes_within 0 1024 text.now) }
    ensures range { IfSome result (λ config. IsShort (config_of config)) }
{
    Some(Config::Descriptor(bytes_in(text, 0, MAX_DESCRIPTOR)?))
}

// Just one of the inline configuration and the descriptor.
fn config_at<'a>(words: &[&'a [u8]]) -> Option<Config<'a>>
    ensures value { option_map config_of result ≡ configuration_at (texts words.now) }
    ensures range { IfSome result (λ config. IsShort (config_of config)) }
{
    let inline = value_at(words, b"config=");
    let descriptor = value_at(words, b"descriptor=");
    match (inline, descriptor) {
        (Some(text), None) => inline_config(text),
        (None, Some(text)) => descriptor_config(text),
        _ => None,
    }
}

fn label_at<'a>(words: &[&'a [u8]]) -> Option<Value<'a>>
    ensures value { option_map value_of result ≡ label_of (texts words.now) }
    ensures size { IfSome result (λ v. length (value_of v) ≤ 64) }
{
    bytes_or_none(words, b"label=", MAX_LABEL)
}

fn keep_at<'a>(words: &[&'a [u8]]) -> Option<Option<&'a [u8]>>
    ensures { option_map (option_map (λ t. t.now)) result ≡ keep_of (texts words.now) }
{
    optional_name(words, b"keep=")
}

fn read_profile<'a>(words: &[&'a [u8]]) -> Option<Act<'a>>
    ensures act { option_map act_of result ≡ at_end profile (texts words.now) }
    ensures range { IfSome result (λ act. IsInRange (act_of act)) }
{
    if words.is_empty() {
        return Some(Act::Profile);
    }
    None
}

fn read_initialize<'a>(words: &[&'a [u8]]) -> Option<Act<'a>>
    ensures act { option_map act_of result ≡ initialize_in (texts words.now) }
    ensures range { IfSome result (λ act. IsInRange (act_of act)) }
{
    let (fresh, others) = first_name(words)?;
    let is_default = last_word(others, b"default")?;
    Some(Act::Initialize { fresh, is_default })
}

fn read_derive<'a>(words: &[&'a [u8]]) -> Option<Act<'a>>
    ensures act { option_map act_of result ≡ derive_in (texts words.now) }
    ensures range { IfSome result (λ act. IsInRange (act_of act)) }
{
    let (old, others) = first_old(words)?;
    let (fresh, options) = first_name(others)?;
    match derive_options(old, fresh, options) {
        Some(derive) => Some(Act::Derive(derive)),
        None => None,
    }
}

// The arguments of `derive`, behind its two names.
fn derive_options<'a>(
    old: Option<&'a [u8]>,
    fresh: &'a [u8],
    options: &[&'a [u8]],
) -> Option<Derive<'a>>
    ensures act { option_map derive_line result ≡ derive_options_in (name_if old.entry) fresh.now (texts options.now) }
    ensures range { IfSome result (λ d. IsDeriveInRange (derive_line d)) }
{
    let code = input_at(options, b"code=")?;
    let config = config_at(options)?;
    let authority = input_at(options, b"authority=")?;
    let mode = number_at(options, b"mode=", MAX_MODE)?;
    let hidden = optional_input(options, b"hidden=")?;
    let keep = keep_at(options)?;
    let locality = optional_number(options, b"locality=", MAX_LOCALITY)?;
    let is_final = flag(options, b"final")?;
    let is_default = flag(options, b"default")?;
    if !has_only(options, &DERIVE_KEYS) {
        return None;
    }
    Some(Derive {
        old,
        fresh,
        code,
        config,
        authority,
        mode,
        hidden,
        keep,
        locality,
        is_final,
        is_default,
    })
}

fn read_sign<'a>(words: &[&'a [u8]]) -> Option<Act<'a>>
    ensures act { option_map act_of result ≡ sign_in (texts words.now) }
    ensures range { IfSome result (λ act. IsInRange (act_of act)) }
{
    let (old, options) = first_old(words)?;
    let message = bytes_at(options, b"message=", 0, MAX_MESSAGE)?;
    let label = label_at(options)?;
    let keep = keep_at(options)?;
    if !has_only(options, &[b"message=", b"label=", b"keep="]) {
        return None;
    }
    Some(Act::Sign(Sign {
        old,
        message,
        label,
        keep,
    }))
}

fn read_seal<'a>(words: &[&'a [u8]]) -> Option<Act<'a>>
    ensures act { option_map act_of result ≡ seal_in (texts words.now) }
    ensures range { IfSome result (λ act. IsInRange (act_of act)) }
{
    let (old, others) = first_old(words)?;
    let (sealed, options) = first_name(others)?;
    let plain = bytes_at(options, b"plain=", 0, MAX_MESSAGE)?;
    let label = label_at(options)?;
    let localities = number_or(options, b"localities=", ALL_LOCALITIES, ALL_LOCALITIES)?;
    let modes = number_or(options, b"modes=", ALL_MODES, ALL_MODES)?;
    let keep = keep_at(options)?;
    if !has_only(
        options,
        &[b"plain=", b"label=", b"localities=", b"modes=", b"keep="],
    ) {
        return None;
    }
    Some(Act::Seal(Seal {
        old,
        sealed,
        plain,
        label,
        localities,
        modes,
        keep,
    }))
}

fn read_unseal<'a>(words: &[&'a [u8]]) -> Option<Act<'a>>
    ensures act { option_map act_of result ≡ unseal_in (texts words.now) }
    ensures range { IfSome result (λ act. IsInRange (act_of act)) }
{
    let (old, others) = first_old(words)?;
    let (sealed, options) = first_name(others)?;
    let label = label_at(options)?;
    let keep = keep_at(options)?;
    if !has_only(options, &[b"label=", b"keep="]) {
        return None;
    }
    Some(Act::Unseal(Unseal {
        old,
        sealed,
        label,
        keep,
    }))
}

fn read_rotate<'a>(words: &[&'a [u8]]) -> Option<Act<'a>>
    ensures act { option_map act_of result ≡ rotate_in (texts words.now) }
    ensures range { IfSome result (λ act. IsInRange (act_of act)) }
{
    let (old, others) = first_old(words)?;
    let (fresh, others) = first_name(others)?;
    let is_default = last_word(others, b"default")?;
    Some(Act::Rotate {
        old,
        fresh,
        is_default,
    })
}

fn read_destroy<'a>(words: &[&'a [u8]]) -> Option<Act<'a>>
    ensures act { option_map act_of result ≡ destroy_in (texts words.now) }
    ensures range { IfSome result (λ act. IsInRange (act_of act)) }
{
    let (old, others) = first_old(words)?;
    let recursive = last_word(others, b"recursive")?;
    Some(Act::Destroy { old, recursive })
}

fn read_raw<'a>(words: &[&'a [u8]]) -> Option<Act<'a>>
    ensures act { option_map act_of result ≡ raw_in (texts words.now) }
    ensures range { IfSome result (λ act. IsInRange (act_of act)) }
{
    let (word, others) = words.split_first()?;
    if !others.is_empty() {
        return None;
    }
    Some(Act::Raw(bytes_in(word, 0, MAX_RAW)?))
}

// The command of this name.
fn read_act<'a>(command: &[u8], words: &[&'a [u8]]) -> Option<Act<'a>>
    ensures act { option_map act_of result ≡ act_named command.now (texts words.now) }
    ensures range { IfSome result (λ act. IsInRange (act_of act)) }
{
    if is_word(command, b"profile") {
        return read_profile(words);
    }
    if is_word(command, b"init") {
        return read_initialize(words);
    }
    if is_word(command, b"derive") {
        return read_derive(words);
    }
    if is_word(command, b"sign") {
        return read_sign(words);
    }
    if is_word(command, b"seal") {
        return read_seal(words);
    }
    if is_word(command, b"unseal") {
        return read_unseal(words);
    }
    if is_word(command, b"rotate") {
        return read_rotate(words);
    }
    if is_word(command, b"destroy") {
        return read_destroy(words);
    }
    if is_word(command, b"raw") {
        return read_raw(words);
    }
    None
}

// One digit, below the number of links.
fn read_link(word: &[u8], links: u8) -> Option<u8>
    ensures link { result ≡ link_in links word.now }
    ensures below { IfSome result (λ link. link < links) }
{
    if word.len() != 1 || word[0] < b'0' {
        return None;
    }
    let link = word[0] - b'0';
    if link < links {
        return Some(link);
    }
    None
}

/// The command of a line's words: a link below `links`, the command's own word, and the words of that command.
pub fn read_asking<'a>(words: &[&'a [u8]], links: u8) -> Option<Asking<'a>>
    ensures asking { option_map asking_of result ≡ asking_in links (texts words.now) }
    ensures range { IfSome result (λ asking. IsInRange (act_of asking.act)) }
    ensures link { IfSome result (λ asking. asking.link < links) }
{
    let (link, others) = words.split_first()?;
    let (command, arguments) = others.split_first()?;
    let link = read_link(link, links)?;
    match read_act(command, arguments) {
        Some(act) => Some(Asking { link, act }),
        None => None,
    }
}
