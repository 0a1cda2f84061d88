use crate::capture::number_in;
use crate::case::Case;
use crate::case_error::CaseError;
use crate::directive::Directive;
use crate::hostile::Sweep;
use crate::told::{tell, tell_device};
use std::fs;
use std::rt::Files;

/// The case under way.
#[derive(Drop)]
pub struct Bench {
    case: Case,
}

impl Bench {
    pub fn new(rt: &impl AllocGlobal) -> Bench {
        Bench {
            case: Case::new(rt),
        }
    }

    /// Does what a line asks for.
    pub fn take(
        &mut self,
        rt: &(impl Files + Print + AllocGlobal),
        line: &str,
    ) -> Result<(), CaseError> {
        let directive = Directive::of(line)?;
        match directive {
            Directive::Nothing => Ok(()),
            Directive::Case { name, words } => self.begin(rt, name, words),
            Directive::Go => {
                let ran = self.case.run(rt)?;
                tell(
                    rt,
                    self.case.name.as_str(),
                    ran.outcome,
                    ran.written.as_slice(),
                )?;
                match self.case.device {
                    Some(_) => tell_device(rt, &ran.device),
                    None => Ok(()),
                }
            }
            Directive::Codes(_) | Directive::Fields { .. } | Directive::Cuts(_) => {
                self.sweep(rt, directive)
            }
            _ => self.give(rt, directive),
        }
    }

    fn begin(&mut self, rt: &impl AllocGlobal, name: &str, words: &str) -> Result<(), CaseError> {
        self.case = Case::new(rt);
        self.case.name.push_str(name)?;
        for word in words.split(' ') {
            if !word.is_empty() {
                self.case.words.push(String::from_str(rt.alloc(), word)?)?;
            }
        }
        Ok(())
    }

    // More of the input.
    fn give(
        &mut self,
        rt: &(impl Files + AllocGlobal),
        directive: Directive<'_>,
    ) -> Result<(), CaseError> {
        let case = &mut self.case;
        match directive {
            Directive::File(path) => case.add(fs::read(rt, path)?.as_slice()),
            Directive::Text(line) => case.add_line(line),
            Directive::Hex(digits) => case.add(hex::decode(rt.alloc(), digits)?.as_slice()),
            Directive::Seed(digits) => case.add_seed(rt, digits),
            Directive::Device(digits) => case.set_device(rt, digits),
            Directive::Capture(name) => {
                let (script, trace) = (read(rt, name, "script")?, read(rt, name, "trace")?);
                case.add_capture(rt, script.as_str(), trace.as_str())
            }
            Directive::Change(change) => change.make(&mut case.packets),
            Directive::Slowly => {
                case.is_slow = true;
                Ok(())
            }
            _ => Err(CaseError::BadLine),
        }
    }

    // Tells the digest of all traces behind injected packets.
    fn sweep(
        &self,
        rt: &(impl Print + AllocGlobal),
        directive: Directive<'_>,
    ) -> Result<(), CaseError> {
        let digest = self.digest(rt, directive)?;
        let name = self.case.name.as_str();
        println!(rt; "{name}: {digest}")?;
        Ok(())
    }

    fn digest(&self, rt: &impl AllocGlobal, directive: Directive<'_>) -> Result<String, CaseError> {
        let sweep = Sweep::new(&self.case);
        match directive {
            Directive::Codes(header) => {
                sweep.codes(rt, hex::decode(rt.alloc(), header)?.as_slice())
            }
            Directive::Fields { packet, fields } => {
                let packet = hex::decode(rt.alloc(), packet)?;
                sweep.fields(rt, packet.as_slice(), fields_in(rt, fields)?.as_slice())
            }
            Directive::Cuts(packet) => sweep.cuts(rt, hex::decode(rt.alloc(), packet)?.as_slice()),
            _ => Err(CaseError::BadLine),
        }
    }
}

// A script of these cases, or its trace.
fn read(rt: &(impl Files + AllocGlobal), name: &str, kind: &str) -> Result<String, CaseError> {
    let path = format!(in rt.alloc(); "scripts/{name}.{kind}")?;
    Ok(fs::read_to_string(rt, path.as_str())?)
}

// A field, as its place and its size.
fn field_in(word: &str) -> Result<(usize, usize), CaseError> {
    let (place, size) = word.split_once(':').ok_or(CaseError::BadLine)?;
    Ok((number_in(place)?, number_in(size)?))
}

// Fields, each as its place and its size.
fn fields_in(rt: &impl AllocGlobal, words: &str) -> Result<Vec<(usize, usize)>, CaseError> {
    let mut fields = Vec::new(rt.alloc());
    for word in words.split(' ') {
        fields.push(field_in(word)?)?;
    }
    Ok(fields)
}
