//! Sign, Seal and Unseal.
ghost use Rattle.std.specs.Prelude.{◌≡◌, ◌+◌, ◌<◌, ◌≤◌, IfOk, IfErr, drop, length, take, if◌then◌else◌};
ghost use Rattle.dpe_box.specs.Sealed.{opened};
ghost use Rattle.dpe_core.specs.Contexts.{Of};
ghost use Rattle.dpe_core.specs.CoreState.{state_of, box_code, box_of, opened_by, Obeys};
ghost use Rattle.dpe_core.specs.Judging.{refused_by, box_tests, IsText};
ghost use Rattle.dpe_messages.specs.Commands.{sign_request, seal_request, unseal_request};
ghost use Rattle.dpe_messages.specs.Ranges.{IsSign, IsSeal, IsUnseal};
ghost use Rattle.dpe_messages.specs.Replies.{IsRefusalCode};
ghost use Rattle.dpe_messages.specs.Request.{sign as sign_of, seal as seal_of, unseal as unseal_of};
ghost use Rattle.dpe_model.specs.State.{Valid};
ghost use Rattle.dpe_model.specs.Step.{salt_of as salt_in};
ghost use Rattle.dpe_model.specs.Verdict.{first_code};

use crate::codes::{BOX_MALFORMED, BOX_REFUSED, POLICY_REFUSED};
use crate::replies::{refuse, write_made};
use crate::state::CoreState;
use dpe_box::{Policy, Unopened, seal, unseal};
use dpe_inputs::signature_with;
use dpe_messages::{Seal, Sign, Unseal};

fn salt_of(random: &[u8; 32]) -> [u8; 16]
    ensures { result ≡ salt_in random.now }
{
    let mut salt = [0; 16];
    let (_, last) = random.split_at(16);
    salt.copy_from_slice(last);
    salt
}

// The length of the text at the front of `text`, or the code of the first test of the box that fails.
fn open(
    cdi: &[u8; 32],
    request: &Unseal<'_>,
    locality: u8,
    mode: u8,
    text: &mut [u8; 2048],
) -> Result<usize, u8>
    requires { IsUnseal (unseal_request request.now) }
    ensures most { IfOk result (λ n. n ≤ 2048) }
    ensures text { IfOk result (IsText (opened cdi.now request.now.label.now request.now.sealed.now) text.new) }
    ensures code { refused_by result ≡ first_code
        (box_tests locality mode (opened cdi.now request.now.label.now request.now.sealed.now)) }
    ensures coded { IfErr result IsRefusalCode }
{
    match unseal(cdi, request.label, request.sealed, locality, mode, text) {
        Ok(len) => Ok(len),
        Err(Unopened::Malformed) => Err(BOX_MALFORMED),
        Err(Unopened::Refused) => Err(BOX_REFUSED),
        Err(Unopened::PolicyRefused) => Err(POLICY_REFUSED),
    }
}

impl CoreState {
    /// Sign, by the attestation CDI of the context.
    pub fn sign(
        &mut self,
        locality: u8,
        random: &[u8; 32],
        sign: &Sign<'_>,
        out: &mut [u8; 4096],
    ) -> usize
        requires valid { Valid (state_of self.old) }
        requires ranges { IsSign (sign_request sign.now) }
        ensures obeys { Obeys self.old self.new locality random.now (sign_of (sign_request sign.now)) out.new result }
        ensures behind { drop result out.new ≡ drop result out.old }
    {
        match self.usable(locality, sign.handle, u64::from(sign.retain)) {
            Err(code) => refuse(code, out),
            Ok(at) => {
                let cdis = self.contexts.cdis(at);
                let signature = signature_with(&self.unsalted, cdis, sign.label, sign.message);
                let handle = self.spend(at, random, sign.retain);
                write_made(handle, &signature, out)
            }
        }
    }

    // Seals under the sealing CDI of the context at a place, and answers the length of the box.
    fn seal_at(
        &self,
        at: usize,
        random: &[u8; 32],
        request: &Seal<'_>,
        sealed: &mut [u8; 4096],
    ) -> usize
        requires place { at < length self.now.contexts.rows }
        requires ranges { IsSeal (seal_request request.now) }
        ensures most { result ≤ 2133 }
        ensures sealed { Of self.now.contexts.rows at (λ row. take result sealed.new
            ≡ box_of self.now random.now (seal_request request.now) row) }
    {
        let policy = Policy {
            localities: request.localities,
            modes: request.modes,
        };
        let cdi = &self.contexts.cdis(at).seal;
        seal(
            cdi,
            request.label,
            &policy,
            &salt_of(random),
            request.plain,
            sealed,
        )
    }

    /// Seal, under the sealing CDI of the context. Bytes 16 to 31 of the random bytes are the salt of the box.
    pub fn seal(
        &mut self,
        locality: u8,
        random: &[u8; 32],
        request: &Seal<'_>,
        out: &mut [u8; 4096],
    ) -> usize
        requires valid { Valid (state_of self.old) }
        requires ranges { IsSeal (seal_request request.now) }
        ensures obeys { Obeys self.old self.new locality random.now (seal_of (seal_request request.now)) out.new result }
        ensures behind { drop result out.new ≡ drop result out.old }
    {
        match self.usable(locality, request.handle, u64::from(request.retain)) {
            Err(code) => refuse(code, out),
            Ok(at) => {
                let mut sealed = [0; 4096];
                let len = self.seal_at(at, random, request, &mut sealed);
                let handle = self.spend(at, random, request.retain);
                write_made(handle, &sealed[..len], out)
            }
        }
    }

    // Opens the box under the sealing CDI of the context at a place.
    fn open_at(
        &self,
        at: usize,
        locality: u8,
        request: &Unseal<'_>,
        text: &mut [u8; 2048],
    ) -> Result<usize, u8>
        requires place { at < length self.now.contexts.rows }
        requires ranges { IsUnseal (unseal_request request.now) }
        ensures most { IfOk result (λ n. n ≤ 2048) }
        ensures text { Of self.now.contexts.rows at (λ row. IfOk result
            (IsText (opened_by self.now (unseal_request request.now) row) text.new)) }
        ensures code { Of self.now.contexts.rows at (λ row. refused_by result
            ≡ box_code self.now locality (unseal_request request.now) row) }
        ensures coded { IfErr result IsRefusalCode }
    {
        let mode = self.contexts.row(at).mode;
        open(&self.contexts.cdis(at).seal, request, locality, mode, text)
    }

    /// Unseal, under the sealing CDI of the context. The box is opened once; where it is refused, the handle stays.
    pub fn unseal(
        &mut self,
        locality: u8,
        random: &[u8; 32],
        request: &Unseal<'_>,
        out: &mut [u8; 4096],
    ) -> usize
        requires valid { Valid (state_of self.old) }
        requires ranges { IsUnseal (unseal_request request.now) }
        ensures obeys { Obeys self.old self.new locality random.now (unseal_of (unseal_request request.now)) out.new result }
        ensures behind { drop result out.new ≡ drop result out.old }
    {
        let at = match self.usable(locality, request.handle, u64::from(request.retain)) {
            Err(code) => return refuse(code, out),
            Ok(at) => at,
        };
        let mut text = [0; 2048];
        let opened = self.open_at(at, locality, request, &mut text);
        match opened {
            Err(code) => refuse(code, out),
            Ok(len) => {
                let handle = self.spend(at, random, request.retain);
                write_made(handle, &text[..len], out)
            }
        }
    }
}
