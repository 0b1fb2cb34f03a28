//! Copies of directives.

use crate::directive::Directive;
use pb_data::TryCopy;
use std::alloc::{AllocError, Global};

impl TryCopy for Directive {
    fn copy(&self, alloc: Global) -> Result<Directive, AllocError> {
        Ok(match self {
            Directive::RerunIfChanged(path) => Directive::RerunIfChanged(path.copy(alloc)?),
            Directive::RerunIfEnvChanged(name) => Directive::RerunIfEnvChanged(name.copy(alloc)?),
            Directive::LinkArg(flag) => Directive::LinkArg(flag.copy(alloc)?),
            Directive::LinkArgBins(flag) => Directive::LinkArgBins(flag.copy(alloc)?),
            Directive::LinkArgCdylib(flag) => Directive::LinkArgCdylib(flag.copy(alloc)?),
            Directive::LinkArgTests(flag) => Directive::LinkArgTests(flag.copy(alloc)?),
            Directive::LinkArgExamples(flag) => Directive::LinkArgExamples(flag.copy(alloc)?),
            Directive::LinkArgBenches(flag) => Directive::LinkArgBenches(flag.copy(alloc)?),
            Directive::LinkArgBin(name, flag) => Directive::LinkArgBin(
                name.copy(alloc)?,
                flag.copy(alloc)?,
            ),
            Directive::LinkLib(name) => Directive::LinkLib(name.copy(alloc)?),
            Directive::LinkSearch(folder) => Directive::LinkSearch(folder.copy(alloc)?),
            Directive::Cfg(condition) => Directive::Cfg(condition.copy(alloc)?),
            Directive::CheckCfg(condition) => Directive::CheckCfg(condition.copy(alloc)?),
            Directive::Env(name, value) => Directive::Env(name.copy(alloc)?, value.copy(alloc)?),
            Directive::Metadata(key, value) => Directive::Metadata(
                key.copy(alloc)?,
                value.copy(alloc)?,
            ),
            Directive::Warning(text) => Directive::Warning(text.copy(alloc)?),
            Directive::Error(text) => Directive::Error(text.copy(alloc)?),
        })
    }
}
