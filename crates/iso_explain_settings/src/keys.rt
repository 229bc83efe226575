//! The keys of settings.

pub(crate) const ENABLED: &str = "junit.jupiter.execution.parallel.enabled";

pub(crate) const MODE: &str = "junit.jupiter.execution.parallel.mode.default";

pub(crate) const CLASSES_MODE: &str = "junit.jupiter.execution.parallel.mode.classes.default";

pub(crate) const STRATEGY: &str = "junit.jupiter.execution.parallel.config.strategy";

pub(crate) const FACTOR: &str = "junit.jupiter.execution.parallel.config.dynamic.factor";

pub(crate) const PARALLELISM: &str = "junit.jupiter.execution.parallel.config.fixed.parallelism";

pub(crate) const LIFECYCLE: &str = "junit.jupiter.testinstance.lifecycle.default";
